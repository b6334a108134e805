//! The edges of an image, priced and as a source of quotes.
ghost use Rattle.std.specs.Prelude.{◌≤◌, ◌+◌, ◌*◌};
ghost use Rattle.market.specs.Limits.{most_orders};

use crate::edge::{head, print_edge, stands};
use crate::scenes::{accepting, begin, buy, close, open};
use auction::call;
use desk::{Desk, lend};
use engine::{Call, Tables};
use image::{ANSWER, BookImage, snap_price_image};
use market::{CENT, HIGHEST_PRICE, LOWEST_PRICE, MOST_ORDERS, MOST_QUOTES, MOST_SHARES, Refusal};
use std::io;
use std::iter::repeat;

// The bytes of the four sizes at the head of an image, and of the price and the shares of an entry.
const HEAD: usize = 16;

const ENTRY_BYTES: usize = 8;

// One entry more than a side may have.
const TOO_MANY: usize = MOST_ORDERS + 1;

// The longest image that is played: one entry too many in one list.
const ROOM: usize = HEAD + ENTRY_BYTES * TOO_MANY;

// The most entries of a list of orders, and of a list of quotes, as an image writes them.
const ORDERS_MOST: u32 = MOST_ORDERS as u32;

const QUOTES_MOST: u32 = MOST_QUOTES as u32;

// How many entries each list has.
#[derive(Clone, Copy)]
struct Sizes {
    buys: u32,
    sells: u32,
    bids: u32,
    offers: u32,
}

// What every entry has.
#[derive(Clone, Copy)]
struct Entry {
    price: u32,
    shares: u32,
}

const NONE: Sizes = Sizes {
    buys: 0,
    sells: 0,
    bids: 0,
    offers: 0,
};

const ORDERS: Sizes = Sizes {
    buys: 1,
    sells: 1,
    ..NONE
};

const QUOTES: Sizes = Sizes {
    bids: 1,
    offers: 1,
    ..NONE
};

const ENTRY: Entry = Entry {
    price: 200_000,
    shares: 100,
};

fn with_buys(buys: u32) -> Sizes {
    Sizes { buys, ..NONE }
}

fn with_sells(sells: u32) -> Sizes {
    Sizes { sells, ..NONE }
}

fn with_bids(bids: u32) -> Sizes {
    Sizes { bids, ..NONE }
}

fn with_offers(offers: u32) -> Sizes {
    Sizes { offers, ..NONE }
}

fn with_shares(shares: u32) -> Entry {
    Entry { shares, ..ENTRY }
}

fn at(price: u32) -> Entry {
    Entry { price, ..ENTRY }
}

// The entries of a list, one more than a side may have at most.
fn entries_of(size: u32) -> usize
    ensures { result ≤ most_orders + 1 }
{
    (size as usize).min(TOO_MANY)
}

impl Sizes {
    // How many entries there are.
    fn entries(self) -> usize
        ensures { result ≤ 4 * (most_orders + 1) }
    {
        let orders = entries_of(self.buys) + entries_of(self.sells);
        orders + entries_of(self.bids) + entries_of(self.offers)
    }

    // How long an image of these sizes is.
    fn length(self) -> usize {
        HEAD + ENTRY_BYTES * self.entries()
    }
}

// The bytes of an image whose entries are all alike.
fn image(sizes: Sizes, entry: Entry) -> [u8; ROOM] {
    let heads = [sizes.buys, sizes.sells, sizes.bids, sizes.offers];
    let entries = sizes.entries();
    let words = heads
        .into_iter()
        .chain(repeat(entry.price).take(entries))
        .chain(repeat(entry.shares).take(entries));
    let mut bytes = [0; ROOM];
    for (place, word) in bytes.chunks_exact_mut(4).zip(words) {
        place.copy_from_slice(&word.to_le_bytes());
    }
    bytes
}

// The first bytes of a room.
fn first(bytes: &[u8; ROOM], length: usize) -> &[u8] {
    &bytes[..length.min(ROOM)]
}

// Prices some bytes into an output of some length, one more than an answer has at most.
fn price(
    rt: &HostRuntime,
    what: &str,
    bytes: &[u8],
    last_sale: u32,
    length: usize,
) -> io::Result<()> {
    let before = [7; ANSWER + 1];
    let mut out = before;
    let refusal = snap_price_image(bytes, last_sale, &mut out[..length.min(ANSWER + 1)]);
    if refusal == 0 {
        return println!(rt; "  {what}: priced");
    }
    let stands = stands(out == before);
    println!(rt; "  {what}: {refusal}, {stands}")
}

// Prices an image with a buy and a sell, with another last sale or another length of the output.
fn price_orders(rt: &HostRuntime, what: &str, last_sale: u32, length: usize) -> io::Result<()> {
    let bytes = image(ORDERS, ENTRY);
    price(rt, what, first(&bytes, ORDERS.length()), last_sale, length)
}

fn outputs(rt: &HostRuntime) -> io::Result<()> {
    head(rt, Refusal::OutputLength)?;
    price_orders(rt, "an output of 16 bytes", 0, ANSWER)?;
    price_orders(rt, "an output of 15 bytes", 0, ANSWER - 1)?;
    price_orders(rt, "an output of 17 bytes", 0, ANSWER + 1)
}

// Prices an image of some sizes, and of some length.
fn laid(rt: &HostRuntime, what: &str, sizes: Sizes, entry: Entry, length: usize) -> io::Result<()> {
    let bytes = image(sizes, entry);
    price(rt, what, first(&bytes, length), 0, ANSWER)
}

fn layouts(rt: &HostRuntime) -> io::Result<()> {
    head(rt, Refusal::ImageLayout)?;
    laid(rt, "16 bytes, no entry", NONE, ENTRY, HEAD)?;
    laid(rt, "15 bytes", NONE, ENTRY, HEAD - 1)?;
    laid(rt, "17 bytes, no entry", NONE, ENTRY, HEAD + 1)?;
    let sizes = [
        ("512 buys", with_buys(ORDERS_MOST)),
        ("513 buys", with_buys(ORDERS_MOST + 1)),
        ("512 sells", with_sells(ORDERS_MOST)),
        ("513 sells", with_sells(ORDERS_MOST + 1)),
        ("32 bids", with_bids(QUOTES_MOST)),
        ("33 bids", with_bids(QUOTES_MOST + 1)),
        ("32 offers", with_offers(QUOTES_MOST)),
        ("33 offers", with_offers(QUOTES_MOST + 1)),
    ];
    for (what, sizes) in sizes {
        laid(rt, what, sizes, ENTRY, sizes.length())?;
    }
    Ok(())
}

// What an entry may have, as orders or as quotes.
fn entries(rt: &HostRuntime, sizes: Sizes) -> io::Result<()> {
    let entries = [
        ("1 share", with_shares(1)),
        ("0 shares", with_shares(0)),
        ("1,000,000 shares", with_shares(MOST_SHARES)),
        ("1,000,001 shares", with_shares(MOST_SHARES + 1)),
        ("at 2 points", at(LOWEST_PRICE)),
        ("at 1 point", at(LOWEST_PRICE - 1)),
        ("at 4,000,000,000 points", at(HIGHEST_PRICE)),
        ("at 4,000,000,200 points", at(HIGHEST_PRICE + CENT)),
    ];
    for (what, entry) in entries {
        laid(rt, what, sizes, entry, sizes.length())?;
    }
    Ok(())
}

fn sales(rt: &HostRuntime) -> io::Result<()> {
    let highest = HIGHEST_PRICE;
    let higher = HIGHEST_PRICE + 1;
    head(rt, Refusal::LastSale)?;
    price_orders(
        rt,
        "an image, a last sale of 4,000,000,000",
        highest,
        ANSWER,
    )?;
    price_orders(rt, "an image, a last sale of 4,000,000,001", higher, ANSWER)
}

// A call on the quotes of an image.
fn play_source(
    rt: &HostRuntime,
    what: &str,
    scene: &Desk,
    asked: Call,
    entry: Entry,
) -> anyhow::Result<()> {
    let bytes = image(QUOTES, entry);
    let book = BookImage::read(first(&bytes, QUOTES.length()))?;
    let mut desk = scene.clone()?;
    let mut tables = lend!(desk.memory);
    let answer = call(&mut desk.engine, &asked, &book, &mut tables);
    print_edge(rt, what, answer, desk == *scene)?;
    Ok(())
}

fn sources(rt: &HostRuntime) -> anyhow::Result<()> {
    let open = open()?;
    let begins = [
        (
            "begin on quotes of 1,000,000 shares",
            with_shares(MOST_SHARES),
        ),
        (
            "begin on quotes of 1,000,001 shares",
            with_shares(MOST_SHARES + 1),
        ),
        ("begin on quotes at no permitted price", at(200_100)),
    ];
    for (what, entry) in begins {
        play_source(rt, what, &open, begin(buy()), entry)?;
    }
    let accepting = accepting()?;
    let closes = [
        (
            "close on quotes of 1,000,000 shares",
            with_shares(MOST_SHARES),
        ),
        (
            "close on quotes of 1,000,001 shares",
            with_shares(MOST_SHARES + 1),
        ),
    ];
    for (what, entry) in closes {
        play_source(rt, what, &accepting, close(), entry)?;
    }
    Ok(())
}

/// Plays the edges of an image.
pub fn play(rt: &HostRuntime) -> anyhow::Result<()> {
    outputs(rt)?;
    layouts(rt)?;
    head(rt, Refusal::ImageOrder)?;
    entries(rt, ORDERS)?;
    sales(rt)?;
    head(rt, Refusal::Quotes)?;
    entries(rt, QUOTES)?;
    sources(rt)
}
