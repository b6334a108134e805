//! The limits of the ladder of permitted prices, each once. specs/Limits.antt states them again for the contracts.

/// How many permitted prices there are.
pub(crate) const PRICES: u32 = 20_009_900;

/// How many of them are below a dollar.
pub(crate) const FINE_PRICES: u32 = 9_999;
