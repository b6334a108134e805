//! The edges of the tables' sizes: one row less or more in one of them.
use crate::edge::{head, print_edge};
use crate::scenes::{begin, buy, open};
use auction::{call, outstanding};
use engine::{Answer, Call, ORDER_ROWS, QUOTE_ROWS, TICKET_ROWS, Tables};
use market::{Quote, Refusal};
use orders::OrderRow;
use routing::Ticket;

// Rows for tables of at most one row more than the engine works on.
#[derive(Clone, Copy, PartialEq)]
struct Rows {
    buys: [OrderRow; ORDER_ROWS + 1],
    sells: [OrderRow; ORDER_ROWS + 1],
    bids: [Quote; QUOTE_ROWS + 1],
    offers: [Quote; QUOTE_ROWS + 1],
    tickets: [Ticket; TICKET_ROWS + 1],
}

fn empty_rows() -> Rows {
    Rows {
        buys: [OrderRow::empty(); ORDER_ROWS + 1],
        sells: [OrderRow::empty(); ORDER_ROWS + 1],
        bids: [Quote::none(); QUOTE_ROWS + 1],
        offers: [Quote::none(); QUOTE_ROWS + 1],
        tickets: [Ticket::empty(); TICKET_ROWS + 1],
    }
}

// How many rows each table has.
#[derive(Clone, Copy)]
struct Lengths {
    buys: usize,
    sells: usize,
    bids: usize,
    offers: usize,
    tickets: usize,
}

const FIT: Lengths = Lengths {
    buys: ORDER_ROWS,
    sells: ORDER_ROWS,
    bids: QUOTE_ROWS,
    offers: QUOTE_ROWS,
    tickets: TICKET_ROWS,
};

fn with_buys(buys: usize) -> Lengths {
    Lengths { buys, ..FIT }
}

fn with_sells(sells: usize) -> Lengths {
    Lengths { sells, ..FIT }
}

fn with_bids(bids: usize) -> Lengths {
    Lengths { bids, ..FIT }
}

fn with_offers(offers: usize) -> Lengths {
    Lengths { offers, ..FIT }
}

fn with_tickets(tickets: usize) -> Lengths {
    Lengths { tickets, ..FIT }
}

// The first rows, as many as are asked for or as there are.
fn first<T>(rows: &mut [T], length: usize) -> &mut [T] {
    let most = rows.len();
    &mut rows[..length.min(most)]
}

// A call on empty tables of some lengths, or where there is none, the question for a ticket.
fn play_lengths(
    rt: &HostRuntime,
    what: &str,
    lengths: Lengths,
    asked: Option<Call>,
) -> anyhow::Result<()> {
    let mut desk = open()?;
    let engine = desk.engine.clone()?;
    let mut rows = empty_rows();
    let before = rows;
    let mut tables = Tables {
        buys: first(&mut rows.buys, lengths.buys),
        sells: first(&mut rows.sells, lengths.sells),
        bids: first(&mut rows.bids, lengths.bids),
        offers: first(&mut rows.offers, lengths.offers),
        tickets: first(&mut rows.tickets, lengths.tickets),
    };
    let answer = match asked {
        Some(asked) => call(&mut desk.engine, &asked, &desk.venues, &mut tables),
        None => outstanding(&desk.engine, &tables).map(|_| Answer::Done),
    };
    let same = desk.engine == engine && rows == before;
    print_edge(rt, what, answer, same)?;
    Ok(())
}

// A begin on tables of several lengths.
fn begins(rt: &HostRuntime, lengths: &[(&str, Lengths)]) -> anyhow::Result<()> {
    for (what, lengths) in lengths {
        play_lengths(rt, what, *lengths, Some(begin(buy())))?;
    }
    Ok(())
}

// The question for a ticket on tables of several lengths.
fn questions(rt: &HostRuntime, lengths: &[(&str, Lengths)]) -> anyhow::Result<()> {
    for (what, lengths) in lengths {
        play_lengths(rt, what, *lengths, None)?;
    }
    Ok(())
}

/// Plays the edges of the tables' sizes.
pub fn play(rt: &HostRuntime) -> anyhow::Result<()> {
    head(rt, Refusal::TableSizes)?;
    begins(
        rt,
        &[
            ("begin with 512, 512, 32, 32 and 544 rows", FIT),
            ("begin with 511 rows of buys", with_buys(ORDER_ROWS - 1)),
            ("begin with 513 rows of buys", with_buys(ORDER_ROWS + 1)),
            ("begin with 511 rows of sells", with_sells(ORDER_ROWS - 1)),
            ("begin with 513 rows of sells", with_sells(ORDER_ROWS + 1)),
            ("begin with 31 rows of bids", with_bids(QUOTE_ROWS - 1)),
            ("begin with 33 rows of bids", with_bids(QUOTE_ROWS + 1)),
            ("begin with 31 rows of offers", with_offers(QUOTE_ROWS - 1)),
            ("begin with 33 rows of offers", with_offers(QUOTE_ROWS + 1)),
        ],
    )?;
    let fewer = with_tickets(TICKET_ROWS - 1);
    let more = with_tickets(TICKET_ROWS + 1);
    begins(
        rt,
        &[
            ("begin with 543 rows of tickets", fewer),
            ("begin with 545 rows of tickets", more),
        ],
    )?;
    questions(
        rt,
        &[
            ("outstanding with 544 rows of tickets", FIT),
            ("outstanding with 543 rows of tickets", fewer),
            ("outstanding with 545 rows of tickets", more),
        ],
    )
}
