//! The limits of the market, each once. specs/Limits.antt states them again for the contracts, where
//! `MarketLimits` says what each is, so that no promise follows a change of a number here.

/// The lowest price that is permitted, in points.
pub const LOWEST_PRICE: u32 = 2;

/// The highest price that is permitted, in points.
pub const HIGHEST_PRICE: u32 = 4_000_000_000;

/// A dollar, in points: from here on prices step by a cent.
pub const DOLLAR: u32 = 20_000;

/// The step of prices below a dollar, in points.
pub const FINE_STEP: u32 = 2;

/// A cent, in points: the step of prices from a dollar on.
pub const CENT: u32 = 200;

/// The most shares that one order or quote has.
pub const MOST_SHARES: u32 = 1_000_000;

/// The most orders on a side of a book, each in a row of the side's table.
pub const MOST_ORDERS: usize = 512;

/// The most quotes that a source may list on a side, each in a row of the quote table.
pub const MOST_QUOTES: usize = 32;

/// How many venues a venue table has room for, numbered from 1.
pub const VENUES: usize = 32;
