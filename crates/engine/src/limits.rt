//! The limits of the engine, each once. Their twins for contracts stand in specs/Limits.antt. Times are milliseconds, and times of
//! the day milliseconds since midnight.
use market::{MOST_ORDERS, MOST_QUOTES};

/// How many rows a side table has: one for each order that a side can have.
pub const ORDER_ROWS: usize = MOST_ORDERS;

/// How many rows a quote table has: one for each quote of a side.
pub const QUOTE_ROWS: usize = MOST_QUOTES;

/// How many rows the ticket table has: there are fewer tickets than orders and quotes of two sides together.
pub const TICKET_ROWS: usize = ORDER_ROWS + QUOTE_ROWS;

/// The last millisecond of the day.
pub const DAY_END: u32 = 86_399_999;

/// When a cycle may start first: 8:30:00.
pub const FIRST_START: u32 = 30_600_000;

/// When a cycle may start last: 14:54:59.999.
pub const LAST_START: u32 = 53_699_999;

/// How long ago the primary market's first two-sided quote must be, at least.
pub const QUOTE_AGE: u32 = 300_000;

/// How long ago the end of the last cycle must be, at least.
pub const CYCLE_GAP: u32 = 60_000;

/// How long acceptance is at least.
pub const SHORTEST_ACCEPTANCE: u32 = 475;

/// How long acceptance is at most.
pub const LONGEST_ACCEPTANCE: u32 = 525;

/// How long tickets may be reported before the match may come without them.
pub const TICKET_TIME: u32 = 200;
