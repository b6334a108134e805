//! The edges of the venue table.
use crate::edge::{head, print_edge};
use engine::Answer;
use market::{CENT, DOLLAR, FINE_STEP, HIGHEST_PRICE, MOST_SHARES, Refusal, VENUES, VenueTable};

// The last venue that there is room for.
const LAST_VENUE: u32 = VENUES as u32;

// A change of a venue table. A side is a number: 1 for bids, 2 for offers, and any other is none.
#[derive(Clone, Copy)]
enum Change {
    Set {
        venue: u32,
        side: u32,
        price: u32,
        shares: u32,
    },
    Clear {
        venue: u32,
        side: u32,
    },
}

fn quoting(venue: u32, side: u32) -> Change {
    Change::Set {
        venue,
        side,
        price: 200_000,
        shares: 100,
    }
}

fn clearing(venue: u32, side: u32) -> Change {
    Change::Clear { venue, side }
}

// Venue 1 bids at a price.
fn at(price: u32) -> Change {
    Change::Set {
        venue: 1,
        side: 1,
        price,
        shares: 100,
    }
}

// Venue 1 bids so many shares.
fn with_shares(shares: u32) -> Change {
    Change::Set {
        venue: 1,
        side: 1,
        price: 200_000,
        shares,
    }
}

// Changes a table on which venue 1 bids, and says what came of it.
fn play_change(rt: &HostRuntime, what: &str, change: Change) -> anyhow::Result<()> {
    let mut table = VenueTable::new();
    table.set(1, 1, 199_600, 100)?;
    let before = table;
    let answer = match change {
        Change::Set {
            venue,
            side,
            price,
            shares,
        } => table.set(venue, side, price, shares),
        Change::Clear { venue, side } => table.clear(venue, side),
    };
    print_edge(rt, what, answer.map(|()| Answer::Done), table == before)?;
    Ok(())
}

fn places(rt: &HostRuntime) -> anyhow::Result<()> {
    head(rt, Refusal::VenueOrSide)?;
    let changes = [
        ("venue 1 quotes", quoting(1, 1)),
        ("venue 0 quotes", quoting(0, 1)),
        ("venue 32 quotes", quoting(LAST_VENUE, 1)),
        ("venue 33 quotes", quoting(LAST_VENUE + 1, 1)),
        ("a quote on side 2", quoting(1, 2)),
        ("a quote on side 3", quoting(1, 3)),
        ("a quote on side 0", quoting(1, 0)),
        ("venue 32 clears", clearing(LAST_VENUE, 2)),
        ("venue 33 clears", clearing(LAST_VENUE + 1, 2)),
        ("side 3 is cleared", clearing(1, 3)),
    ];
    for (what, change) in changes {
        play_change(rt, what, change)?;
    }
    Ok(())
}

fn values(rt: &HostRuntime) -> anyhow::Result<()> {
    head(rt, Refusal::QuoteValue)?;
    let changes = [
        ("at 20,000 points", at(DOLLAR)),
        ("at 20,002 points", at(DOLLAR + FINE_STEP)),
        ("at 4,000,000,000 points", at(HIGHEST_PRICE)),
        ("at 4,000,000,200 points", at(HIGHEST_PRICE + CENT)),
        ("1,000,000 shares", with_shares(MOST_SHARES)),
        ("1,000,001 shares", with_shares(MOST_SHARES + 1)),
        ("1 share", with_shares(1)),
        ("0 shares", with_shares(0)),
    ];
    for (what, change) in changes {
        play_change(rt, what, change)?;
    }
    Ok(())
}

/// Plays the edges of the venue table.
pub fn play(rt: &HostRuntime) -> anyhow::Result<()> {
    places(rt)?;
    values(rt)
}
