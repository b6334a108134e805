//! The lengths of an image and of an answer, in bytes, and the most entries, each once. specs/Limits.antt states them again for
//! the contracts.

use market::MOST_ORDERS;

/// The bytes of a number: a little-endian word.
pub(crate) const WORD: usize = 4;

/// The bytes of the four sizes, with which an image begins.
pub(crate) const HEADER: usize = 16;

/// The bytes of an entry: its price and its shares.
pub(crate) const ENTRY: usize = 8;

/// The bytes of an answer: price, cause and count.
pub const ANSWER: usize = 16;

/// The most entries that a list of an image has: as many as a side has orders.
pub const MOST_ENTRIES: usize = MOST_ORDERS;
