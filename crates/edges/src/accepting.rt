//! The edges of the acceptance: entering, cancelling, closing.
use crate::edge::{edge, edges, head};
use crate::scenes::{BEGIN, CLOSE, accepting, buy, order};
use desk::Desk;
use engine::{Call, DAY_END, ORDER_ROWS};
use market::{CENT, DOLLAR, FINE_STEP, HIGHEST_PRICE, LOWEST_PRICE, MOST_SHARES, Refusal, Side};
use orders::Order;

// The number of the order that comes after a full side of buys: orders 1 and 2 are there, 1 on this side.
const AFTER_FULL: u32 = ORDER_ROWS as u32 + 2;

// The order that an edge enters, where nothing else is said.
fn third() -> Order {
    order(3, Side::Buy, 200_400, 100)
}

fn enter(order: Order) -> Call {
    Call::Enter { order }
}

// The third order with another number.
fn numbered(number: u32) -> Call {
    enter(Order { number, ..third() })
}

// The third order with another side, by its number.
fn on_side(side: u32) -> Call {
    enter(Order { side, ..third() })
}

// The third order with another class, by its number.
fn in_class(class: u32) -> Call {
    enter(Order { class, ..third() })
}

// The third order with another price.
fn at(price: u32) -> Call {
    enter(Order { price, ..third() })
}

// The third order with other shares.
fn with_shares(shares: u32) -> Call {
    enter(Order { shares, ..third() })
}

fn forms(rt: &HostRuntime, desk: &Desk) -> anyhow::Result<()> {
    head(rt, Refusal::OrderForm)?;
    edges(
        rt,
        desk,
        &[
            ("order 4,294,967,295", numbered(u32::MAX)),
            ("order 0", numbered(0)),
            ("side 2", on_side(2)),
            ("side 3", on_side(3)),
            ("side 0", on_side(0)),
            ("class 2", in_class(2)),
            ("class 3", in_class(3)),
            ("1 share", with_shares(1)),
            ("0 shares", with_shares(0)),
            ("1,000,000 shares", with_shares(MOST_SHARES)),
            ("1,000,001 shares", with_shares(MOST_SHARES + 1)),
        ],
    )
}

fn prices(rt: &HostRuntime, desk: &Desk) -> anyhow::Result<()> {
    edges(
        rt,
        desk,
        &[
            ("at 2 points", at(LOWEST_PRICE)),
            ("at 1 point", at(LOWEST_PRICE - 1)),
            ("at 0 points", at(0)),
            ("at 19,998 points", at(DOLLAR - FINE_STEP)),
            ("at 19,999 points", at(DOLLAR - 1)),
            ("at 20,000 points", at(DOLLAR)),
            ("at 20,002 points", at(DOLLAR + FINE_STEP)),
            ("at 20,200 points", at(DOLLAR + CENT)),
            ("at 4,000,000,000 points", at(HIGHEST_PRICE)),
            ("at 4,000,000,200 points", at(HIGHEST_PRICE + CENT)),
        ],
    )
}

// A desk whose buys fill all rows but some.
fn filled(free: u32) -> Result<Desk, Refusal> {
    let mut desk = accepting()?;
    for number in 3..AFTER_FULL.saturating_sub(free) {
        desk.call(numbered(number))?;
    }
    Ok(desk)
}

fn room(rt: &HostRuntime, desk: &Desk) -> anyhow::Result<()> {
    head(rt, Refusal::NumberTaken)?;
    edges(
        rt,
        desk,
        &[
            ("a number on neither side", enter(third())),
            ("a number on the buys", numbered(1)),
            ("a number on the sells", numbered(2)),
        ],
    )?;
    head(rt, Refusal::SideFull)?;
    let sell = Order {
        number: AFTER_FULL,
        side: u32::from(Side::Sell),
        ..third()
    };
    edge(rt, &filled(1)?, "the 512th buy", &numbered(AFTER_FULL))?;
    let full = filled(0)?;
    edge(rt, &full, "the 513th buy", &numbered(AFTER_FULL))?;
    edge(rt, &full, "a sell beside 512 buys", &enter(sell))
}

fn cancel(number: u32) -> Call {
    Call::Cancel { number }
}

fn cancelling(rt: &HostRuntime, desk: &Desk) -> anyhow::Result<()> {
    head(rt, Refusal::UnknownOrder)?;
    edges(
        rt,
        desk,
        &[
            ("cancel order 2", cancel(2)),
            ("cancel order 3", cancel(3)),
            ("cancel order 0", cancel(0)),
        ],
    )?;
    head(rt, Refusal::NoRest)?;
    edge(rt, desk, "cancel order 1", &cancel(1))?;
    let mut once = accepting()?;
    once.call(cancel(1))?;
    edge(rt, &once, "cancel it again", &cancel(1))?;
    edge(rt, &once, "enter its number again", &enter(buy()))
}

fn close_by(time: u32, last_sale: u32) -> Call {
    Call::Close { time, last_sale }
}

fn abort(time: u32) -> Call {
    Call::Abort { time }
}

fn closing(rt: &HostRuntime, desk: &Desk) -> anyhow::Result<()> {
    head(rt, Refusal::CloseEarly)?;
    edge(rt, desk, "close 500 after the begin", &close_by(CLOSE, 0))?;
    edge(
        rt,
        desk,
        "close 499 after the begin",
        &close_by(CLOSE - 1, 0),
    )?;
    head(rt, Refusal::LastSale)?;
    let highest = close_by(CLOSE, HIGHEST_PRICE);
    let higher = close_by(CLOSE, HIGHEST_PRICE + 1);
    edge(rt, desk, "a last sale of 4,000,000,000", &highest)?;
    edge(rt, desk, "a last sale of 4,000,000,001", &higher)?;
    head(rt, Refusal::TimeRange)?;
    edges(
        rt,
        desk,
        &[
            ("abort at the time of the begin", abort(BEGIN)),
            ("abort a millisecond before", abort(BEGIN - 1)),
            ("close at 23:59:59.999", close_by(DAY_END, 0)),
            ("close at midnight", close_by(DAY_END + 1, 0)),
        ],
    )
}

/// Plays the edges of the acceptance.
pub fn play(rt: &HostRuntime) -> anyhow::Result<()> {
    let desk = accepting()?;
    forms(rt, &desk)?;
    prices(rt, &desk)?;
    room(rt, &desk)?;
    cancelling(rt, &desk)?;
    closing(rt, &desk)
}
