//! Prices the worked books through the exported function, and prints what it got.

#![tactic(auto)]

mod books;
mod bytes;

use books::{Worked, book_at, ticket_at, worked_books_close};
use bytes::{Priced, image_of};
use image::snap_price_image;
use pricing::Level;
use report::Grouped;
use routing::Ticket;

// One entry of a book as it is written: shares at a price.
fn entry_words(rt: &HostRuntime, entry: Option<Level>) -> anyhow::Result<String> {
    let Some(level) = entry else {
        return Ok(String::new(rt.alloc()));
    };
    let shares = level.shares;
    let price = Grouped(u64::from(level.price));
    Ok(format!(in rt.alloc(); "{shares}@{price}")?)
}

// What the 16 bytes of an answer say.
fn outcome_words(rt: &HostRuntime, priced: Priced) -> anyhow::Result<String> {
    if priced.cause != 0 {
        let cause = priced.cause;
        return Ok(format!(in rt.alloc(); "cause {cause}")?);
    }
    let price = Grouped(u64::from(priced.price));
    let count = Grouped(priced.count);
    Ok(format!(in rt.alloc(); "{price}, count {count}")?)
}

// The shares that a close sends out, and at which price.
fn ticket_words(rt: &HostRuntime, ticket: Option<Ticket>) -> anyhow::Result<String> {
    let Some(ticket) = ticket else {
        return Ok(String::new(rt.alloc()));
    };
    let shares = ticket.shares;
    let price = Grouped(u64::from(ticket.price));
    Ok(format!(in rt.alloc(); "  ticket {shares}@{price}")?)
}

// The book at a place, counted from 0, in a line that counts from 1.
fn print_book(rt: &HostRuntime, place: usize, worked: Worked) -> anyhow::Result<()> {
    let number = place.saturating_add(1);
    let image = image_of(rt.alloc(), worked)?;
    let mut out = [0; 16];
    let refusal = snap_price_image(image.as_slice(), worked.last_sale, &mut out);
    let buy = entry_words(rt, worked.buy)?;
    let sell = entry_words(rt, worked.sell)?;
    let bid = entry_words(rt, worked.bid)?;
    let offer = entry_words(rt, worked.offer)?;
    let last = Grouped(u64::from(worked.last_sale)).to_string(rt.alloc())?;
    let outcome = if refusal == 0 {
        outcome_words(rt, Priced::from(&out))?
    } else {
        format!(in rt.alloc(); "refused with {refusal}")?
    };
    let ticket = ticket_words(rt, ticket_at(place))?;
    println!(rt;
        "{number:>2}  {buy:<12} {sell:<12} {bid:<12} {offer:<12} {last:>8}  {outcome}{ticket}"
    )?;
    Ok(())
}

fn main(rt: HostRuntime) -> anyhow::Result<()> {
    let proved = worked_books_close();
    println!(rt;
        "{proved} worked books, whose outcomes and tickets are proved of the rules, priced by the exported function"
    )?;
    println!(rt; "No  buy          sell         bid          offer        last sale  outcome")?;
    for place in 0..proved {
        if let Some(worked) = book_at(place) {
            print_book(&rt, place, worked)?;
        }
    }
    Ok(())
}
