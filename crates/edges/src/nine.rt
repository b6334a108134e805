//! The ninth worked book to its end: 100 shares are matched here, 150 go out by a ticket.
use crate::edge::tell;
use crate::scenes::{DEADLINE, begin, buy, close, open, sell};
use desk::Desk;
use engine::Call;
use orders::OrderRow;
use std::io;

fn print_row(rt: &HostRuntime, side: &str, row: OrderRow) -> io::Result<()> {
    let number = row.number;
    let rest = row.rest;
    let here = row.here;
    let away = row.away;
    let out = row.out;
    let late = row.late;
    println!(rt; "  {side} {number}: rest {rest}, here {here}, away {away}, out {out}, late {late}")
}

fn print_rows(rt: &HostRuntime, desk: &Desk) -> io::Result<()> {
    print_row(rt, "buy", desk.memory.buys[0])?;
    print_row(rt, "sell", desk.memory.sells[0])
}

// From the begin to the close.
fn priced(rt: &HostRuntime) -> anyhow::Result<Desk> {
    let mut desk = open()?;
    let calls = [
        ("begin with a buy of 300 at 200,400", begin(buy())),
        (
            "enter a sell of 100 at 200,400",
            Call::Enter { order: sell() },
        ),
        ("close", close()),
    ];
    for (what, call) in calls {
        tell(rt, &mut desk, what, call)?;
    }
    print_rows(rt, &desk)?;
    Ok(desk)
}

const REPORT: Call = Call::Report {
    ticket: 1,
    filled: 120,
};

fn match_at(time: u32) -> Call {
    Call::Match { time }
}

/// The ticket is reported before the match.
pub fn reported(rt: &HostRuntime) -> anyhow::Result<()> {
    println!(rt; "")?;
    println!(rt; "Book nine, its ticket reported before the match")?;
    let mut desk = priced(rt)?;
    tell(rt, &mut desk, "120 filled of 150", REPORT)?;
    tell(rt, &mut desk, "match", match_at(DEADLINE - 1))?;
    print_rows(rt, &desk)?;
    Ok(())
}

/// The ticket is reported after the match.
pub fn late(rt: &HostRuntime) -> anyhow::Result<()> {
    println!(rt; "")?;
    println!(rt; "Book nine, its ticket reported after the match")?;
    let mut desk = priced(rt)?;
    tell(rt, &mut desk, "match at the deadline", match_at(DEADLINE))?;
    print_rows(rt, &desk)?;
    tell(rt, &mut desk, "120 filled of 150", REPORT)?;
    print_rows(rt, &desk)?;
    Ok(())
}
