//! The session that is played: what the venues quote, and what members enter.
use engine::{Call, Facts, TICKET_TIME};
use market::Side;
use orders::{Class, Order};

// How long orders are taken, in milliseconds.
const ACCEPTANCE: u32 = 500;

/// When the cycle begins, in milliseconds since midnight, as every time here: 10:15.
pub const BEGIN: u32 = 36_900_000;

/// A close before the acceptance is over.
pub const EARLY_CLOSE: u32 = CLOSE - 100;

/// The close, as soon as the acceptance is over.
pub const CLOSE: u32 = BEGIN + ACCEPTANCE;

/// A match before the deadline, while tickets are out.
pub const EARLY_MATCH: u32 = CLOSE + 120;

/// The deadline of tickets: the match may come without them.
pub const MATCH: u32 = CLOSE + TICKET_TIME;

/// The end of the cycle.
pub const FINISH: u32 = MATCH + 250;

/// The last eligible sale before the close, in points.
pub const LAST_SALE: u32 = 1_040_300;

/// What the venue knows of the market as it begins the cycle.
pub const FACTS: Facts = Facts {
    short_sale: false,
    first_quote: Some(30_604_120),
    routing: true,
    acceptance: ACCEPTANCE,
};

/// A quote of a venue.
#[derive(Clone, Copy)]
pub struct Quoted {
    /// The number of the venue.
    pub venue: u32,
    /// Buy for a bid, sell for an offer.
    pub side: Side,
    /// The price, in points.
    pub price: u32,
    /// How many shares.
    pub shares: u32,
}

fn quote(venue: u32, side: Side, price: u32, shares: u32) -> Quoted {
    Quoted {
        venue,
        side,
        price,
        shares,
    }
}

/// What the venues quote.
pub fn quotes() -> [Quoted; 8] {
    [
        quote(2, Side::Buy, 1_039_600, 1_000),
        quote(5, Side::Buy, 1_039_400, 800),
        quote(8, Side::Buy, 1_039_600, 1_500),
        quote(11, Side::Buy, 1_039_000, 600),
        quote(2, Side::Sell, 1_040_400, 1_200),
        quote(5, Side::Sell, 1_040_200, 700),
        quote(8, Side::Sell, 1_040_600, 1_000),
        quote(11, Side::Sell, 1_041_200, 900),
    ]
}

fn order(number: u32, side: Side, class: Class, price: u32, shares: u32) -> Order {
    Order {
        number,
        side: u32::from(side),
        class: u32::from(class),
        price,
        shares,
    }
}

// The start order with some shares.
fn start_with(shares: u32) -> Order {
    order(101, Side::Buy, Class::Displayed, 1_040_600, shares)
}

/// The start order with too few shares, and as it is granted.
pub fn starts() -> [Order; 2] {
    [start_with(9_000), start_with(12_000)]
}

/// The orders of the acceptance, as they come. The last has the number of another.
pub fn entries() -> [Order; 13] {
    [
        order(102, Side::Buy, Class::Hidden, 1_041_200, 1_000),
        order(204, Side::Sell, Class::Hidden, 1_040_400, 4_000),
        order(205, Side::Sell, Class::Displayed, 1_040_400, 1_200),
        order(103, Side::Buy, Class::Reserve, 1_040_600, 1_500),
        order(202, Side::Sell, Class::Reserve, 1_040_400, 3_000),
        order(107, Side::Buy, Class::Displayed, 1_040_600, 2_000),
        order(105, Side::Buy, Class::Displayed, 1_040_600, 800),
        order(203, Side::Sell, Class::Displayed, 1_040_400, 2_500),
        order(104, Side::Buy, Class::Displayed, 1_041_000, 900),
        order(201, Side::Sell, Class::Displayed, 1_040_600, 3_300),
        order(106, Side::Buy, Class::Hidden, 1_040_000, 1_000),
        order(206, Side::Sell, Class::Displayed, 1_041_600, 2_000),
        order(203, Side::Sell, Class::Displayed, 1_040_000, 500),
    ]
}

/// The number of the order that its member cancels.
pub const CANCELLED: u32 = 107;

/// A number that no order has.
pub const UNKNOWN: u32 = 999;

/// What the venues report of tickets. The first is more than the ticket has.
pub const REPORTS: [Call; 3] = [
    Call::Report {
        ticket: 1,
        filled: 900,
    },
    Call::Report {
        ticket: 1,
        filled: 500,
    },
    Call::Report {
        ticket: 2,
        filled: 300,
    },
];

/// What is reported after the match. The fourth ticket is never reported.
pub const LATE_REPORT: Call = Call::Report {
    ticket: 3,
    filled: 600,
};
