//! The record of one pricing.
ghost use Rattle.image.specs.Readers.{reader_book};
ghost use Rattle.price_image.specs.Prices.{LastBetween};

use crate::prices::Prices;
use crate::request::Request;
use arrayvec::ArrayVec;
use image::BookImage;
use market::{QuoteSource, Side};
use pricing::{BookView, Cause, reference_price};
use report::{Column, Dollars, Grouped};
use std::io;

/// Prints what was asked for: the image with its length in bytes, and the last sale in points.
pub fn print_request(rt: &HostRuntime, request: &Request, bytes: usize) -> io::Result<()> {
    let path = request.path.as_str();
    println!(rt; "SNAP pricing of {path}, {bytes} bytes")?;
    let Some(sale) = request.last_sale else {
        return println!(rt; "last eligible sale: none");
    };
    let dollars = Dollars(sale);
    let points = Grouped(u64::from(sale));
    println!(rt; "last eligible sale: {dollars} ({points} points)")
}

// The word for a side is another for orders than for quotes, so it goes with the side.
fn print_orders(rt: &HostRuntime, book: &BookImage<'_>, side: Side, name: &str) -> io::Result<()> {
    // The reader is questioned by place, and answers none past the end.
    for place in 0..book.orders(side).len() {
        if let Some(order) = book.order(side, place) {
            let shares = Column::<14>(u64::from(order.shares));
            let points = Column::<14>(u64::from(order.price));
            let dollars = Dollars(order.price);
            println!(rt; "  {name:<9}{shares}{points}   {dollars}")?;
        }
    }
    Ok(())
}

fn print_quotes(rt: &HostRuntime, book: &BookImage<'_>, side: Side, name: &str) -> io::Result<()> {
    for place in 0..book.count(side) {
        if let Some(quote) = book.quote(side, place) {
            let venue = quote.venue;
            let shares = Column::<14>(u64::from(quote.shares));
            let points = Column::<14>(u64::from(quote.price));
            let dollars = Dollars(quote.price);
            println!(rt; "  {name:<6}{venue:<3}{shares}{points}   {dollars}")?;
        }
    }
    Ok(())
}

/// Prints the orders and the quotes of a book in the order in which it lists them: shares, and price in points.
pub fn print_book(rt: &HostRuntime, book: &BookImage<'_>) -> io::Result<()> {
    println!(rt; "")?;
    println!(rt; "The book           shares        points   dollars")?;
    print_orders(rt, book, Side::Buy, "buy")?;
    print_orders(rt, book, Side::Sell, "sell")?;
    print_quotes(rt, book, Side::Buy, "bid")?;
    print_quotes(rt, book, Side::Sell, "offer")
}

// Demand, supply and count at a price.
fn print_level(rt: &HostRuntime, book: &BookImage<'_>, price: u32, mark: &str) -> io::Result<()> {
    let points = Column::<14>(u64::from(price));
    let demand = Column::<14>(book.demand(price));
    let supply = Column::<14>(book.supply(price));
    let count = Column::<14>(book.count_at(price));
    println!(rt; "{points}{demand}{supply}{count}{mark}")
}

// How many prices of the book are shown on each side of the middle.
const SHOWN: usize = 4;

// The last prices of the book below one, as many as are shown, the lowest first: a window that slides over them, with no heap.
fn prices_below(book: &BookImage<'_>, middle: u32) -> ArrayVec<u32, SHOWN>
    ensures { LastBetween SHOWN (reader_book book.now) 0 middle result.items }
{
    let mut last = ArrayVec::new();
    for price in Prices::above(*book, 0).take_while(|price| *price < middle) {
        if last.is_full() {
            last.remove(0);
        }
        last.push(price);
    }
    last
}

// Demand and supply at the prices of the book around a price, the highest last.
fn print_around(rt: &HostRuntime, book: &BookImage<'_>, middle: u32) -> io::Result<()> {
    println!(rt; "")?;
    println!(rt; "Around the price      demand        supply         count")?;
    for price in prices_below(book, middle) {
        print_level(rt, book, price, "")?;
    }
    print_level(rt, book, middle, "  <")?;
    for price in Prices::above(*book, middle).take(SHOWN) {
        print_level(rt, book, price, "")?;
    }
    Ok(())
}

fn print_reference(
    rt: &HostRuntime,
    last_sale: Option<u32>,
    reference: Option<u32>,
) -> io::Result<()> {
    let Some(price) = reference else {
        return println!(rt;
            "reference  none: there is no last sale, and not both a bid and an offer"
        );
    };
    let dollars = Dollars(price);
    let points = Grouped(u64::from(price));
    let origin = if last_sale.is_some() {
        "the last sale"
    } else {
        "halfway between best bid and best offer"
    };
    println!(rt; "reference  {dollars} ({points} points), {origin}")
}

fn print_cause(rt: &HostRuntime, outcome: Result<(u32, u64), Cause>) -> io::Result<()> {
    match outcome {
        Ok((price, count)) => {
            let dollars = Dollars(price);
            let points = Grouped(u64::from(price));
            let count = Grouped(count);
            println!(rt; "cause      0, priced")?;
            println!(rt; "price      {dollars} ({points} points)")?;
            println!(rt; "count      {count} shares")
        }
        Err(cause) => {
            let number = u32::from(cause);
            println!(rt; "cause      {number}, {cause}")
        }
    }
}

/// Prints demand and supply around the price, the reference, and the outcome: the price in points with its count in shares, or the
/// cause. A last sale is in points.
pub fn print_outcome(
    rt: &HostRuntime,
    book: &BookImage<'_>,
    last_sale: Option<u32>,
    outcome: Result<(u32, u64), Cause>,
) -> io::Result<()> {
    let reference = reference_price(
        last_sale.unwrap_or(0),
        book.best_quote(Side::Buy),
        book.best_quote(Side::Sell),
    );
    let middle = match outcome {
        Ok((price, _)) => price,
        Err(_) => reference.unwrap_or(book.next_price(0)),
    };
    print_around(rt, book, middle)?;
    println!(rt; "")?;
    println!(rt; "The outcome")?;
    print_reference(rt, last_sale, reference)?;
    print_cause(rt, outcome)
}
