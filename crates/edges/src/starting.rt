//! The edges of a begin: the market, the start order, the time and the facts.
use crate::edge::{edge, edges, head};
use crate::scenes::{BEGIN, FACTS, begin, buy, open, order, quoted};
use desk::Desk;
use engine::{
    CYCLE_GAP, Call, FIRST_START, Facts, Issue, LAST_START, LONGEST_ACCEPTANCE, QUOTE_AGE,
    SHORTEST_ACCEPTANCE,
};
use market::{Refusal, Side};

// An open desk with no quote on a side.
fn without(side: Side) -> Result<Desk, Refusal> {
    let mut desk = open()?;
    desk.venues.clear(1, u32::from(side))?;
    Ok(desk)
}

fn market(rt: &HostRuntime, desk: &Desk) -> anyhow::Result<()> {
    let mut halted = desk.clone()?;
    halted.venues.set_halted(true);
    head(rt, Refusal::TradingHalted)?;
    edge(rt, desk, "begin while trading goes on", &begin(buy()))?;
    edge(rt, &halted, "begin while trading is halted", &begin(buy()))?;
    head(rt, Refusal::NoMarket)?;
    let locked = quoted(Issue::Special, 200_000, 200_000)?;
    edge(
        rt,
        &locked,
        "begin with the bid at the offer",
        &begin(buy()),
    )?;
    let crossed = quoted(Issue::Special, 200_200, 200_000)?;
    edge(
        rt,
        &crossed,
        "begin with the bid above the offer",
        &begin(buy()),
    )?;
    edge(rt, &without(Side::Buy)?, "begin with no bid", &begin(buy()))?;
    edge(
        rt,
        &without(Side::Sell)?,
        "begin with no offer",
        &begin(buy()),
    )
}

// A begin with a start order of a side at a price.
fn reaching(side: Side, price: u32) -> Call {
    begin(order(1, side, price, 300))
}

fn reach(rt: &HostRuntime, desk: &Desk) -> anyhow::Result<()> {
    head(rt, Refusal::StartReach)?;
    edges(
        rt,
        desk,
        &[
            ("a buy at the best offer", reaching(Side::Buy, 200_000)),
            ("a buy one step below it", reaching(Side::Buy, 199_800)),
            ("a sell at the best bid", reaching(Side::Sell, 199_600)),
            ("a sell one step above it", reaching(Side::Sell, 199_800)),
        ],
    )
}

fn begin_at(time: u32, facts: Facts) -> Call {
    Call::Begin {
        time,
        order: buy(),
        facts,
    }
}

// A begin at the usual time with other facts.
fn begin_with(facts: Facts) -> Call {
    begin_at(BEGIN, facts)
}

// A begin whose first two-sided quote of the day came at a time, if it came.
fn quoted_first(first_quote: Option<u32>) -> Call {
    begin_with(Facts {
        first_quote,
        ..FACTS
    })
}

// A begin at a time, the first two-sided quote of the day at midnight.
fn begin_early(time: u32) -> Call {
    let early = Facts {
        first_quote: Some(0),
        ..FACTS
    };
    begin_at(time, early)
}

// A desk whose last cycle ended this long before the begin.
fn ended_ago(age: u32) -> Result<Desk, Refusal> {
    let mut desk = open()?;
    let end = BEGIN.saturating_sub(age);
    desk.call(begin_at(end, FACTS))?;
    desk.call(Call::Abort { time: end })?;
    Ok(desk)
}

// When of the day a cycle may start, and how long after the first two-sided quote and after the last cycle.
fn times(rt: &HostRuntime, desk: &Desk) -> anyhow::Result<()> {
    head(rt, Refusal::StartTime)?;
    edges(
        rt,
        desk,
        &[
            ("begin at 8:30:00.000", begin_early(FIRST_START)),
            ("begin a millisecond before", begin_early(FIRST_START - 1)),
            ("begin at 14:54:59.999", begin_early(LAST_START)),
            ("begin a millisecond later", begin_early(LAST_START + 1)),
            (
                "first quoted 300,000 ago",
                quoted_first(Some(BEGIN - QUOTE_AGE)),
            ),
            (
                "first quoted 299,999 ago",
                quoted_first(Some(BEGIN - QUOTE_AGE + 1)),
            ),
            ("first quote not known", quoted_first(None)),
        ],
    )?;
    let just = ended_ago(CYCLE_GAP)?;
    edge(rt, &just, "the last end 60,000 ago", &begin_with(FACTS))?;
    let short = ended_ago(CYCLE_GAP - 1)?;
    edge(rt, &short, "the last end 59,999 ago", &begin_with(FACTS))
}

fn facts(rt: &HostRuntime, desk: &Desk) -> anyhow::Result<()> {
    let short = Facts {
        short_sale: true,
        ..FACTS
    };
    let unrouted = Facts {
        routing: false,
        ..FACTS
    };
    head(rt, Refusal::ShortSale)?;
    edges(
        rt,
        desk,
        &[
            ("no short sale under restriction", begin_with(FACTS)),
            ("a short sale under restriction", begin_with(short)),
        ],
    )?;
    head(rt, Refusal::NoRouting)?;
    edges(
        rt,
        desk,
        &[
            ("routing available", begin_with(FACTS)),
            ("routing not available", begin_with(unrouted)),
        ],
    )
}

// A begin with another acceptance length.
fn lasting(acceptance: u32) -> Call {
    begin_with(Facts {
        acceptance,
        ..FACTS
    })
}

fn length(rt: &HostRuntime, desk: &Desk) -> anyhow::Result<()> {
    head(rt, Refusal::AcceptanceLength)?;
    edges(
        rt,
        desk,
        &[
            ("an acceptance of 475", lasting(SHORTEST_ACCEPTANCE)),
            ("an acceptance of 474", lasting(SHORTEST_ACCEPTANCE - 1)),
            ("an acceptance of 525", lasting(LONGEST_ACCEPTANCE)),
            ("an acceptance of 526", lasting(LONGEST_ACCEPTANCE + 1)),
        ],
    )
}

/// Plays the edges of a begin.
pub fn play(rt: &HostRuntime) -> anyhow::Result<()> {
    let desk = open()?;
    market(rt, &desk)?;
    reach(rt, &desk)?;
    times(rt, &desk)?;
    facts(rt, &desk)?;
    length(rt, &desk)
}
