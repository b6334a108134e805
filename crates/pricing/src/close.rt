//! The outcome of a close: the SNAP Price with its count, or why there is none.
ghost use Rattle.std.specs.Prelude.{◌≡◌, ℕ, Err};
ghost use Rattle.pricing.specs.declared.cause.Cause.TheVariants.{NothingToTrade};
ghost use Rattle.pricing.specs.Books.{Sound, count_at};
ghost use Rattle.pricing.specs.Counting.{counting_book};
ghost use Rattle.pricing.specs.Outcomes.{Best, IsOutcome, Orderly, Snapped, is_locked, is_crossed, touching, reference_of};

use crate::cause::Cause;
use crate::ladder::{nearest, place_near};
use crate::limits::PRICES;
use crate::range::{highest, lowest};
use crate::view::BookView;
use market::Side;

/// Whether the best bid equals the best offer: the outside market is locked. Prices are in points, none where a side quotes
/// nothing, here and below.
pub fn is_locked(bid: Option<u32>, offer: Option<u32>) -> bool
    ensures { result ≡ is_locked bid offer }
{
    bid.zip(offer).is_some_and(|(bid, offer)| bid == offer)
}

/// Whether the best bid is above the best offer: the outside market is crossed.
pub fn is_crossed(bid: Option<u32>, offer: Option<u32>) -> bool
    ensures { result ≡ is_crossed bid offer }
{
    bid.zip(offer).is_some_and(|(bid, offer)| bid > offer)
}

/// Whether the best bid equals the best offer or is above it: the outside market is locked or crossed.
pub fn locked_or_crossed(bid: Option<u32>, offer: Option<u32>) -> bool
    ensures { result ≡ touching bid offer }
{
    bid.zip(offer).is_some_and(|(bid, offer)| bid >= offer)
}

/// The price by which one of several candidates is chosen: the last eligible sale, if it is not 0,
/// else halfway between the best bid and the best offer.
pub fn reference_price(last_sale: u32, bid: Option<u32>, offer: Option<u32>) -> Option<u32>
    ensures { result ≡ reference_of last_sale bid offer }
{
    // The rules, and images, say by 0 that there was no sale.
    if last_sale != 0 {
        return Some(last_sale);
    }
    bid.zip(offer).map(|(bid, offer)| bid.midpoint(offer))
}

// The SNAP Price under a reference, and its count.
fn snap<B: BookView>(view: &B, reference: Option<u32>) -> Result<(u32, u64), Cause>
    ensures { Sound (B.book view.now) → Snapped (B.book view.now) reference result }
{
    let low = lowest(view, reference.map_or(PRICES / 2, place_near));
    let high = highest(view, low);
    let count = view.count_at(low);
    if count == 0 {
        return Err(Cause::NothingToTrade);
    }
    if low == high {
        return Ok((low, count));
    }
    let Some(reference) = reference else {
        return Err(Cause::NoReference);
    };
    let price = nearest(low, high, reference);
    Ok((price, count))
}

// The outcome by the order of the causes. Here it is decided on which view the price is chosen: every quote counts, so it is the
// view as it is.
fn settle<B: BookView>(view: &B, halted: bool, last_sale: u32) -> Result<(u32, u64), Cause>
    ensures { Sound (B.book view.now) → IsOutcome halted (B.book view.now) last_sale result }
{
    if halted {
        return Err(Cause::Halted);
    }
    let bid = view.best_quote(Side::Buy);
    let offer = view.best_quote(Side::Sell);
    if locked_or_crossed(bid, offer) {
        return Err(Cause::LockedOrCrossed);
    }
    snap(view, reference_price(last_sale, bid, offer))
}

/// The outcome of a close on a book of permitted prices: the SNAP Price in points and its count in shares, or the cause why there is
/// none. `last_sale` is the last eligible sale in points, 0 where there was none.
///
/// That the prices are permitted is asked before, by those who bring a book, and it is a premise of clauses here and no invariant of
/// a view: on any other book it answers too, but its answer is free.
pub fn close_price<B: BookView>(view: &B, halted: bool, last_sale: u32) -> Result<(u32, u64), Cause>
    ensures outcome { Sound (B.book view.now)
        → IsOutcome halted (B.book view.now) last_sale result }
    ensures best { Sound (B.book view.now) → Best (B.book view.now) result }
    ensures nothing { Sound (B.book view.now) → Orderly halted (B.book view.now)
        → ((q : ℕ) → count_at (counting_book (B.book view.now)) q ≡ 0) → result ≡ Err NothingToTrade }
{
    settle(view, halted, last_sale)
}
