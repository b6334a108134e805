//! Desks brought to a stage, on which the edges are played. `Err` is the refusal of the first call of a scene that is not granted.
use desk::Desk;
use engine::{Call, Engine, Facts, Issue, TICKET_TIME};
use market::{Refusal, Side};
use orders::{Class, Order};

/// How long the scenes take orders, in milliseconds.
pub const ACCEPTANCE: u32 = 500;

/// When the cycle begins, in milliseconds since midnight, as every time here.
pub const BEGIN: u32 = 40_000_000;

/// When it may be closed.
pub const CLOSE: u32 = BEGIN + ACCEPTANCE;

/// The deadline of its ticket.
pub const DEADLINE: u32 = CLOSE + TICKET_TIME;

/// What the venue knows of the market as it begins the cycle: all is well.
pub const FACTS: Facts = Facts {
    short_sale: false,
    first_quote: Some(39_000_000),
    routing: true,
    acceptance: ACCEPTANCE,
};

/// A displayed order, at a price in points.
pub fn order(number: u32, side: Side, price: u32, shares: u32) -> Order {
    Order {
        number,
        side: u32::from(side),
        class: u32::from(Class::Displayed),
        price,
        shares,
    }
}

/// The buy of the ninth worked book.
pub fn buy() -> Order {
    order(1, Side::Buy, 200_400, 300)
}

/// The sell of the ninth worked book.
pub fn sell() -> Order {
    order(2, Side::Sell, 200_400, 100)
}

/// The begin of the cycle with an order.
pub fn begin(order: Order) -> Call {
    Call::Begin {
        time: BEGIN,
        order,
        facts: FACTS,
    }
}

/// The close as soon as it may come, with no last sale.
pub fn close() -> Call {
    Call::Close {
        time: CLOSE,
        last_sale: 0,
    }
}

/// An open desk for an issue, with a bid and an offer of venue 1, in points.
pub fn quoted(issue: Issue, bid: u32, offer: u32) -> Result<Desk, Refusal> {
    let mut desk = Desk::new();
    desk.engine = Engine::new(issue);
    desk.venues.set(1, u32::from(Side::Buy), bid, 100)?;
    desk.venues.set(1, u32::from(Side::Sell), offer, 150)?;
    Ok(desk)
}

/// The quotes of the ninth worked book, in a special issue, so that its orders have the minimum size.
pub fn open() -> Result<Desk, Refusal> {
    quoted(Issue::Special, 199_600, 200_000)
}

/// In acceptance, with a buy and a sell.
pub fn accepting() -> Result<Desk, Refusal> {
    let mut desk = open()?;
    desk.call(begin(buy()))?;
    desk.call(Call::Enter { order: sell() })?;
    Ok(desk)
}

/// In satisfaction: 150 shares of the buy are sent to venue 1 by a ticket.
pub fn satisfying() -> Result<Desk, Refusal> {
    let mut desk = accepting()?;
    desk.call(close())?;
    Ok(desk)
}

/// Matched at the deadline, the ticket not reported.
pub fn matched() -> Result<Desk, Refusal> {
    let mut desk = satisfying()?;
    desk.call(Call::Match { time: DEADLINE })?;
    Ok(desk)
}
