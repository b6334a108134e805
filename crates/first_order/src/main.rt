//! One order from begin to finish, by the call that a venue makes: `auction::call`. Read this first; each call says above it what it
//! asks and what it does. Prices are points, of which a dollar has 20,000, and times milliseconds since midnight.
#![tactic(auto)]

ghost use Rattle.std.specs.Prelude.{◌≡◌};
ghost use Rattle.market.specs.Sides.{side_number};

use auction::call;
use call_words::AnswerWords;
use engine::{Answer, Call, Engine, Facts, Issue, ORDER_ROWS, QUOTE_ROWS, TICKET_ROWS, Tables};
use market::{Quote, Side, VenueTable};
use orders::{Class, Order, OrderRow};
use routing::Ticket;
use std::io;

// When the cycle begins, and how long it takes orders.
const BEGIN: u32 = 40_000_000;

const ACCEPTANCE: u32 = 500;

const CLOSE: u32 = BEGIN + ACCEPTANCE;

// The market as the venue knows it when it begins: no short sale, quoted since 10 o'clock, and tickets can be sent.
const FACTS: Facts = Facts {
    short_sale: false,
    first_quote: Some(36_000_000),
    routing: true,
    acceptance: ACCEPTANCE,
};

// A displayed order at ten dollars.
fn order(number: u32, side: Side, shares: u32) -> Order
    ensures { result ≡ record { number = number; side = side_number side; class = 0; price = 200000; shares = shares } }
{
    Order {
        number,
        side: u32::from(side),
        class: u32::from(Class::Displayed),
        price: 200_000,
        shares,
    }
}

fn print(rt: &HostRuntime, what: &str, answer: Answer) -> io::Result<()> {
    let words = AnswerWords(answer);
    println!(rt; "{what}: {words}")
}

fn main(rt: HostRuntime) -> anyhow::Result<()> {
    // What outside venues quote: venue 1 bids 9.99 and offers at 10 dollars, so that the buy reaches the offer.
    let mut venues = VenueTable::new();
    venues.set(1, u32::from(Side::Buy), 199_800, 400)?;
    venues.set(1, u32::from(Side::Sell), 200_000, 600)?;

    // One engine for one security, and the memory of its five tables. The engine keeps no rows: every call is lent the same tables.
    let mut engine = Engine::new(Issue::Ordinary);
    let mut buys = [OrderRow::empty(); ORDER_ROWS];
    let mut sells = [OrderRow::empty(); ORDER_ROWS];
    let mut bids = [Quote::none(); QUOTE_ROWS];
    let mut offers = [Quote::none(); QUOTE_ROWS];
    let mut tickets = [Ticket::empty(); TICKET_ROWS];
    let mut tables = Tables {
        buys: &mut buys,
        sells: &mut sells,
        bids: &mut bids,
        offers: &mut offers,
        tickets: &mut tickets,
    };
    let tables = &mut tables;

    // Begin: may a cycle start now, on this market, with this order? It enters order 1 and opens the acceptance.
    let begin = Call::Begin {
        time: BEGIN,
        order: order(1, Side::Buy, 25_000),
        facts: FACTS,
    };
    let answer = call(&mut engine, &begin, &venues, tables)?;
    print(&rt, "begin with a buy of 25,000 at $10", answer)?;

    // Enter: is the order well formed, its number new, and room on its side? It puts order 2 among the sells.
    let enter = Call::Enter {
        order: order(2, Side::Sell, 25_000),
    };
    let answer = call(&mut engine, &enter, &venues, tables)?;
    print(&rt, "enter a sell of 25,000 at $10", answer)?;

    // Close: is the acceptance over? It fixes the price and the count, and writes tickets for what is to be sent to other venues.
    let close = Call::Close {
        time: CLOSE,
        last_sale: 200_000,
    };
    let answer = call(&mut engine, &close, &venues, tables)?;
    print(&rt, "close", answer)?;

    // Match: are all tickets reported, or is their deadline here? It executes both sides at the price.
    let match_at = Call::Match { time: CLOSE + 50 };
    let answer = call(&mut engine, &match_at, &venues, tables)?;
    print(&rt, "match", answer)?;

    // Finish: it ends the cycle, and the engine is open for another.
    let finish = Call::Finish { time: CLOSE + 100 };
    let answer = call(&mut engine, &finish, &venues, tables)?;
    print(&rt, "finish", answer)?;
    Ok(())
}
