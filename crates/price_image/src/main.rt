//! Prices a book image and prints a record of it: price_image [IMAGE [LAST-SALE]].

#![tactic(auto)]

mod prices;
mod record;
mod request;

use anyhow::anyhow;
use image::{BookImage, price_image};
use market::Refusal;
use record::{print_book, print_outcome, print_request};
use request::Request;
use std::fs;
use std::process::ExitCode;

// A refusal as a message, with its number.
fn refused(refusal: Refusal) -> anyhow::Error {
    let number = u32::from(refusal);
    anyhow!("refused with {number}: {refusal}")
}

fn run(rt: &HostRuntime) -> anyhow::Result<()> {
    let request = Request::from_arguments(rt)?;
    let path = request.path.as_str();
    let bytes = fs::read(rt, path).map_err(|e| anyhow!("cannot read the image {path}: {e}"))?;
    let outcome = price_image(bytes.as_slice(), request.last_sale.unwrap_or(0)).map_err(refused)?;
    let book = BookImage::read(bytes.as_slice()).map_err(refused)?;
    print_request(rt, &request, bytes.len())?;
    print_book(rt, &book)?;
    print_outcome(rt, &book, request.last_sale, outcome)?;
    Ok(())
}

// An error is told on one line that scripts read; a `main` that returned it would print it in another form.
fn main(rt: HostRuntime) -> anyhow::Result<ExitCode> {
    if let Err(e) = run(&rt) {
        eprintln!(rt; "price_image: {e}")?;
        return Ok(ExitCode::FAILURE);
    }
    Ok(ExitCode::SUCCESS)
}
