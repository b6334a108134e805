//! The sheets of the record: the book, the tickets, the prices around the price, the orders at the end.
ghost use Rattle.std.specs.Prelude.{◌≡◌, codes, if◌then◌else◌};

use crate::accounts::{adds_up, all_add_up, executed_here};
use call_words::class_name;
use desk::{Depth, Desk, step_above, step_below};
use orders::OrderRow;
use report::{Column, Dollars, Grouped};
use std::io;

// A count of shares at the right end of a column of 10.
fn shares(count: u32) -> Column<10>
    ensures { result.0 ≡ count }
{
    Column(u64::from(count))
}

fn print_rows(rt: &HostRuntime, rows: &[OrderRow], side: &str) -> io::Result<()> {
    for row in rows.iter().filter(|row| row.number > 0) {
        let number = row.number;
        let class = class_name(row.class);
        let dollars = Dollars(row.price);
        let rest = shares(row.rest);
        let out = shares(row.out);
        println!(rt; "  {side:<6}{number:>5}  {class:<10}{dollars}{rest}{out}")?;
    }
    Ok(())
}

/// Both sides in rank order: by price, then by class, then by number.
pub fn print_book(rt: &HostRuntime, desk: &Desk, when: &str) -> io::Result<()> {
    println!(rt; "")?;
    println!(rt; "The book as ranked, {when}")?;
    println!(rt; "  side  order  class     price          rest       out")?;
    print_rows(rt, &desk.memory.buys, "buy")?;
    print_rows(rt, &desk.memory.sells, "sell")
}

/// The tickets in the order of their numbers, each with whether it is reported.
pub fn print_tickets(rt: &HostRuntime, desk: &Desk, when: &str) -> io::Result<()> {
    println!(rt; "")?;
    println!(rt; "The tickets, {when}")?;
    println!(rt; "  ticket  order  venue  price        shares  reported")?;
    let tickets = (1..).zip(&desk.memory.tickets);
    for (number, ticket) in tickets.filter(|(_, ticket)| ticket.shares > 0) {
        let order = ticket.order;
        let venue = ticket.venue;
        let dollars = Dollars(ticket.price);
        let asked = shares(ticket.shares);
        let reported = if ticket.reported { "yes" } else { "no" };
        println!(rt; "  {number:>6}{order:>7}{venue:>7}  {dollars}{asked}  {reported}")?;
    }
    Ok(())
}

/// Whether a ticket is still out, and which one first: a line of its own.
pub fn print_outstanding(rt: &HostRuntime, desk: &mut Desk) -> io::Result<()>
    ensures { desk.new ≡ desk.old }
{
    match desk.outstanding() {
        Ok(Some(ticket)) => println!(rt;
            "  outstanding: ticket {ticket} is the first not reported"
        ),
        Ok(None) => println!(rt; "  outstanding: no ticket"),
        Err(refusal) => println!(rt; "  outstanding: {refusal}"),
    }
}

/// Demand, supply and count, in shares, at a price in points, and at the two steps below and above it.
pub fn print_depth(rt: &HostRuntime, depth: &Depth, price: u32) -> io::Result<()> {
    println!(rt; "")?;
    println!(rt; "Around the price     demand        supply         count")?;
    let below = step_below(price);
    let above = step_above(price);
    for level in [step_below(below), below, price, above, step_above(above)] {
        let dollars = Dollars(level);
        let demand = Column::<14>(depth.demand(level));
        let supply = Column::<14>(depth.supply(level));
        let count = Column::<14>(depth.count(level));
        let mark = if level == price { "  <" } else { "" };
        println!(rt; "  {dollars}  {demand}{supply}{count}{mark}")?;
    }
    Ok(())
}

fn print_traders(rt: &HostRuntime, rows: &[OrderRow], did: &str) -> io::Result<()> {
    for row in rows.iter().filter(|row| row.here > 0 || row.away > 0) {
        let number = row.number;
        let here = Grouped(u64::from(row.here));
        let away = Grouped(u64::from(row.away));
        println!(rt; "  order {number} {did} {here} here, {away} away")?;
    }
    Ok(())
}

/// Who traded here, and who on other venues by tickets.
pub fn print_trades(rt: &HostRuntime, desk: &Desk) -> io::Result<()> {
    println!(rt; "")?;
    println!(rt; "Who traded")?;
    print_traders(rt, &desk.memory.buys, "bought")?;
    print_traders(rt, &desk.memory.sells, "sold")
}

// Two words for a bool, in a line, as long as a type's Display would be.
fn verdict(holds: bool) -> &'static str
    ensures { result.now ≡ (if holds then codes "holds" else codes "FAILS") }
{
    if holds { "holds" } else { "FAILS" }
}

fn print_counts(rt: &HostRuntime, rows: &[OrderRow], side: &str) -> io::Result<()> {
    for row in rows.iter().filter(|row| row.number > 0) {
        let number = row.number;
        let entered = shares(row.shares);
        let rest = shares(row.rest);
        let here = shares(row.here);
        let away = shares(row.away);
        let out = shares(row.out);
        let cancelled = shares(row.cancelled);
        let late = shares(row.late);
        let sum = verdict(adds_up(*row));
        println!(rt;
            "  {side:<5}{number:>5}{entered}{rest}{here}{away}{out}{cancelled}{late}  {sum}"
        )?;
    }
    Ok(())
}

/// Every order, with where its shares went.
pub fn print_orders(rt: &HostRuntime, desk: &Desk) -> io::Result<()> {
    println!(rt; "")?;
    println!(rt; "Every order")?;
    println!(rt;
        "  side order   entered      rest      here      away       out cancelled      late  sum"
    )?;
    print_counts(rt, &desk.memory.buys, "buy")?;
    print_counts(rt, &desk.memory.sells, "sell")
}

/// What surveillance checks: that as much was bought here as was sold, and that no share of an order is lost.
pub fn print_checks(rt: &HostRuntime, desk: &Desk) -> io::Result<()> {
    let bought = executed_here(&desk.memory.buys);
    let sold = executed_here(&desk.memory.sells);
    let even = verdict(bought == sold);
    let whole = verdict(all_add_up(&desk.memory.buys) && all_add_up(&desk.memory.sells));
    let bought = Grouped(bought);
    let sold = Grouped(sold);
    println!(rt; "")?;
    println!(rt; "What surveillance checks")?;
    println!(rt; "  bought here {bought} = sold here {sold}: {even}")?;
    println!(rt;
        "  entered = rest + here + away + out + cancelled + late, for every order: {whole}"
    )
}
