//! The minimum size of a start order.
ghost use Rattle.std.specs.Prelude.{◌≡◌};
ghost use Rattle.engine.specs.Minimum.{ordinary_minimum, minimum};

use crate::stage::Issue;

// From a price up, this many shares. (`Level` is shares that stand at a price.)
#[derive(Clone, Copy, Debug, PartialEq, Eq)]
pub(crate) struct Step {
    pub(crate) price: u32,
    pub(crate) shares: u32,
}

const STEPS: [Step; 7] = [
    Step {
        price: 2,
        shares: 100_000,
    },
    Step {
        price: 20_000,
        shares: 50_000,
    },
    Step {
        price: 100_000,
        shares: 25_000,
    },
    Step {
        price: 500_000,
        shares: 20_000,
    },
    Step {
        price: 1_000_000,
        shares: 10_000,
    },
    Step {
        price: 2_000_000,
        shares: 5_000,
    },
    Step {
        price: 10_000_000,
        shares: 2_500,
    },
];

// Below the first step.
const LOWEST: u32 = 100_000;

// A special issue has one minimum at every price.
const SPECIAL: u32 = 100;

// The shares of the last step that is at the price or lower.
fn ordinary_minimum(price: u32) -> u32
    ensures { result ≡ ordinary_minimum price }
{
    STEPS
        .iter()
        .rev()
        .find(|step| step.price <= price)
        .map_or(LOWEST, |step| step.shares)
}

/// The least shares of a start order at a price, in points, of an issue of its kind (RULES, "The questions of begin").
pub fn minimum_size(issue: Issue, price: u32) -> u32
    ensures { result ≡ minimum issue price }
{
    match issue {
        Issue::Ordinary => ordinary_minimum(price),
        Issue::Special => SPECIAL,
    }
}
