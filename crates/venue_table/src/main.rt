//! Shows a venue table being filled, changed, halted and listed.

#![tactic(auto)]

use market::{QuoteSource, Refusal, Side, VENUES, VenueTable, best_price, quotes_fit};
use report::{Dollars, Grouped};
use std::io;

// The last venue that there is room for.
const LAST_VENUE: u32 = VENUES as u32;

// What came of a call, in words.
fn print_answer(rt: &HostRuntime, call: &str, answer: Result<(), Refusal>) -> io::Result<()> {
    match answer {
        Ok(()) => println!(rt; "{call}: done"),
        Err(refusal) => {
            let number = u32::from(refusal);
            println!(rt; "{call}: refused with {number}, {refusal}")
        }
    }
}

// A quote on a side has a word of its own, bid or offer.
fn print_side(rt: &HostRuntime, table: &VenueTable, side: Side, name: &str) -> io::Result<()> {
    for quote in table.quotes(side) {
        let venue = quote.venue;
        let shares = Grouped(u64::from(quote.shares));
        let dollars = Dollars(quote.price);
        println!(rt; "  venue {venue}: {name} {shares} shares at {dollars}")?;
    }
    if let Some(price) = best_price(table, side) {
        let dollars = Dollars(price);
        println!(rt; "  best {name}: {dollars}")?;
    }
    Ok(())
}

fn print_table(rt: &HostRuntime, table: &VenueTable) -> io::Result<()> {
    let halted = if table.halted() { "halted" } else { "trading" };
    let fit = if quotes_fit(table) {
        "the quotes fit"
    } else {
        "the quotes do not fit"
    };
    println!(rt; "The table, {halted}; {fit}")?;
    print_side(rt, table, Side::Buy, "bid")?;
    print_side(rt, table, Side::Sell, "offer")?;
    println!(rt; "")
}

// Venues quote, in no order of their numbers. A call may bring any number for a side; 1 is bids and 2 is offers.
fn fill(rt: &HostRuntime, table: &mut VenueTable) -> io::Result<()> {
    print_answer(
        rt,
        "venue 7 bids 300 at 199,800",
        table.set(7, 1, 199_800, 300),
    )?;
    print_answer(
        rt,
        "venue 2 bids 400 at 199,600",
        table.set(2, 1, 199_600, 400),
    )?;
    print_answer(
        rt,
        "venue 7 offers 600 at 200,400",
        table.set(7, 2, 200_400, 600),
    )?;
    print_answer(
        rt,
        "venue 32 offers 500 at 200,200",
        table.set(LAST_VENUE, 2, 200_200, 500),
    )
}

// Calls that are turned away, and change nothing.
fn refused(rt: &HostRuntime, table: &mut VenueTable) -> io::Result<()> {
    print_answer(
        rt,
        "venue 33 bids 100 at 200,000",
        table.set(LAST_VENUE + 1, 1, 200_000, 100),
    )?;
    print_answer(
        rt,
        "venue 2 quotes on side 3",
        table.set(2, 3, 200_000, 100),
    )?;
    print_answer(
        rt,
        "venue 2 bids 100 at 200,100",
        table.set(2, 1, 200_100, 100),
    )?;
    print_answer(rt, "venue 2 bids 0 at 200,000", table.set(2, 1, 200_000, 0))?;
    print_answer(rt, "venue 0 clears its bid", table.clear(0, 1))
}

fn main(rt: HostRuntime) -> io::Result<()> {
    let mut table = VenueTable::new();
    fill(&rt, &mut table)?;
    print_table(&rt, &table)?;
    refused(&rt, &mut table)?;
    print_answer(
        &rt,
        "venue 7 bids 900 at 199,400",
        table.set(7, 1, 199_400, 900),
    )?;
    print_answer(&rt, "venue 32 clears its offer", table.clear(LAST_VENUE, 2))?;
    table.set_halted(true);
    print_table(&rt, &table)?;
    table.set_halted(false);
    print_answer(&rt, "venue 2 clears its bid", table.clear(2, 1))?;
    print_table(&rt, &table)
}
