//! The calls of the engine, with their arguments. Times are milliseconds since midnight.
use orders::Order;

/// What the venue knows of the market as it begins a cycle.
#[derive(Clone, Copy, Debug, PartialEq, Eq)]
pub struct Facts {
    /// Whether the start order is a short sale under restriction; then it is refused (8).
    pub short_sale: bool,
    /// When the primary market's first two-sided quote of the day came, if it has come.
    pub first_quote: Option<u32>,
    /// Whether tickets can be sent to outside venues; without it no cycle starts (12).
    pub routing: bool,
    /// How long orders are taken.
    pub acceptance: u32,
}

/// A call of the engine, with its arguments. What each asks, by which refusals it is met, and what it does stands in RULES, "The
/// questions of a call" and "What a granted call does". Times are milliseconds since midnight. Of a call there is one: it is not
/// `Copy`, since a later kind of call may carry what is handed over.
#[derive(Clone, Debug, Drop, PartialEq, Eq)]
pub enum Call {
    /// Starts a cycle with one order, on an open engine.
    Begin {
        /// When it comes, in milliseconds since midnight.
        time: u32,
        /// The start order.
        order: Order,
        /// What the venue knows of the market.
        facts: Facts,
    },
    /// Enters one more order, in acceptance.
    Enter {
        /// The order.
        order: Order,
    },
    /// Cancels the rest of an order, in acceptance.
    Cancel {
        /// The number of the order.
        number: u32,
    },
    /// Ends acceptance: fixes the price, and tickets what is owed to outside quotes.
    Close {
        /// When it comes, in milliseconds since midnight.
        time: u32,
        /// The last sale that the venue knows, in points; by the rules 0 says that there is none.
        last_sale: u32,
    },
    /// Says what became of a ticket, in satisfaction or once matched.
    Report {
        /// The number of the ticket, counted from 1.
        ticket: u32,
        /// How many of its shares were filled outside.
        filled: u32,
    },
    /// Executes both sides at the price that was fixed, in satisfaction.
    Match {
        /// When it comes, in milliseconds since midnight.
        time: u32,
    },
    /// Ends a matched cycle.
    Finish {
        /// When it comes, in milliseconds since midnight.
        time: u32,
    },
    /// Cancels every rest and ends the cycle, in any stage but open.
    Abort {
        /// When it comes, in milliseconds since midnight.
        time: u32,
    },
}
