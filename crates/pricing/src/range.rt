//! The candidates of a book of permitted prices stand in a row: the lowest of them, and the highest.
ghost use Rattle.std.specs.Prelude.{◌+◌, ◌<◌, ◌≤◌};
ghost use Rattle.market.specs.Limits.{lowest_price, highest_price};
ghost use Rattle.pricing.specs.Books.{Sound};
ghost use Rattle.pricing.specs.Ranges.{Lowest, Highest};

use crate::ladder::price_at;
use crate::limits::PRICES;
use crate::view::BookView;

// The next place to look at, strictly between two others: the hint, then a step away from the one bound that was looked at, and
// halfway once both were. What is found does not depend on where it is.
fn next_place(low: u32, high: u32, hint: u32, step: u32) -> u32
    requires { low + 1 < high }
    ensures { (low < result) × (result < high) }
{
    let place = match (low == 0, high == PRICES) {
        (true, true) => hint,
        (true, false) => high.saturating_sub(step),
        (false, true) => low.saturating_add(step),
        (false, false) => low.midpoint(high),
    };
    place.max(low + 1).min(high - 1)
}

// The least permitted price at which what is wanted above it can be had. It is looked for from the hint outwards; any hint will do.
pub(crate) fn lowest<B: BookView>(view: &B, hint: u32) -> u32
    ensures inside { (lowest_price ≤ result) × (result ≤ highest_price) }
    ensures lowest { Sound (B.book view.now) → Lowest (B.book view.now) result }
{
    // The permitted prices are numbered and not listed: there is no slice to search.
    let mut low = 0;
    let mut high = PRICES;
    let mut step: u32 = 0;
    while low + 1 < high {
        let mid = next_place(low, high, hint, step);
        step = step.saturating_mul(16).max(1);
        let price = price_at(mid);
        if view.demand(price + 1) <= view.supply(price) {
            high = mid;
        } else {
            low = mid;
        }
    }
    price_at(high)
}

// The greatest permitted price at which what is offered below it is wanted. Where the shares wanted above
// the lowest candidate are just those to be had at it, this is the next price at which shares stand.
pub(crate) fn highest<B: BookView>(view: &B, lowest: u32) -> u32
    requires { lowest ≤ highest_price }
    ensures inside { result ≤ highest_price }
    ensures highest { Sound (B.book view.now) → Lowest (B.book view.now) lowest
        → Highest (B.book view.now) result }
{
    if view.demand(lowest + 1) == view.supply(lowest) {
        view.next_price(lowest)
    } else {
        lowest
    }
}
