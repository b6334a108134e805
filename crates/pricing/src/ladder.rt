//! The permitted prices in their order, and the choice among a row of them.
ghost use Rattle.std.specs.Prelude.{◌≡◌, ◌+◌, ℕ, ◌<◌, ◌≤◌, Some};
ghost use Rattle.market.specs.Limits.{lowest_price, highest_price};
ghost use Rattle.market.specs.Prices.{Permitted};
ghost use Rattle.pricing.specs.Limits.{permitted_prices};
ghost use Rattle.pricing.specs.Ranges.{price_at, nearer_of, Around, Within};
ghost use Rattle.pricing.specs.Candidates.{Chosen};

use crate::limits::FINE_PRICES;
use market::{CENT, DOLLAR, FINE_STEP};
use std::cmp::Ordering;

// The i-th permitted price, counted from 1, in points.
pub(crate) fn price_at(i: u32) -> u32
    requires { i ≤ permitted_prices + 1 }
    ensures { result ≡ price_at i }
{
    if i <= FINE_PRICES {
        FINE_STEP * i
    } else {
        DOLLAR + CENT * (i - FINE_PRICES - 1)
    }
}

// The neighbouring permitted prices that hold a price between them: one at or below it, the other above. A pair, which its only
// caller takes apart at once.
fn neighbours(price: u32) -> (u32, u32)
    requires { (lowest_price ≤ price) × (price < highest_price) }
    ensures { Around price result.0 result.1 }
{
    let step = if price < DOLLAR { FINE_STEP } else { CENT };
    let below = price - price % step;
    (below, below + step)
}

// Of two prices around a reference the nearer one; midway, the reference itself.
fn nearer(reference: u32, below: u32, above: u32) -> u32
    ensures { result ≡ nearer_of reference below above }
{
    let down = reference.saturating_sub(below);
    let up = above.saturating_sub(reference);
    match down.cmp(&up) {
        Ordering::Less => below,
        Ordering::Greater => above,
        Ordering::Equal => reference,
    }
}

// The price nearest to the reference from `low` to `high`; midway between two, the reference itself.
pub(crate) fn nearest(low: u32, high: u32, reference: u32) -> u32
    requires { (lowest_price ≤ low) × (high ≤ highest_price) }
    ensures { Permitted low → Permitted high → low ≤ high
        → Chosen (Within low high) (Some reference) result }
{
    if reference <= low {
        return low;
    }
    if reference >= high {
        return high;
    }
    let (below, above) = neighbours(reference);
    nearer(reference, below, above)
}

// Where a price stands about, among the permitted ones.
pub(crate) fn place_near(price: u32) -> u32 {
    if price < DOLLAR {
        price / FINE_STEP
    } else {
        FINE_PRICES + 1 + (price - DOLLAR) / CENT
    }
}
