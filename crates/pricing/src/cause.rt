//! Why a close fixes no price. A close that fixes one has the cause number 0.
ghost use Rattle.std.specs.Prelude.{◌≡◌, Some};
ghost use Rattle.pricing.specs.Outcomes.{cause_number};
ghost use Rattle.pricing.specs.Causes.{cause_words};

use std::error::Error;
use std::fmt;

/// Why a close fixes no price, with the number of each cause (docs/RULES.md, "What a close answers").
#[derive(Clone, Copy, Debug, PartialEq, Eq, Hash)]
pub enum Cause {
    /// The candidates count zero: no price finds both a buyer and a seller.
    NothingToTrade = 1,
    /// The best bid equals the best offer or is above it.
    LockedOrCrossed = 2,
    /// Several candidates, and no reference to choose by: no last eligible sale, and no bid or no offer.
    NoReference = 3,
    /// Trading in the security is halted.
    Halted = 4,
}

impl Cause {
    /// What it says, in words.
    pub fn words(self) -> &'static str
        ensures { result.now ≡ cause_words self }
    {
        match self {
            Cause::NothingToTrade => "nothing to trade: no price finds both a buyer and a seller",
            Cause::LockedOrCrossed =>
                "the outside market is locked or crossed: the best bid reaches the best offer",
            Cause::NoReference =>
                "several prices are possible, and there is no reference to choose by",
            Cause::Halted => "trading in the security is halted",
        }
    }
}

// Written by hand: a derived Display has no contract.
impl fmt::Display for Cause {
    ghost output = { λ cause. Some (cause_words cause) };

    fn fmt<W: fmt::Write>(&self, f: &mut fmt::Formatter<W>) -> fmt::Result {
        let words = self.words();
        write!(f, "{words}")
    }
}

impl Error for Cause {}

impl From<Cause> for u32 {
    ghost from_gives = { λ cause number. number ≡ cause_number cause };

    fn from(cause: Cause) -> u32 {
        cause as u32
    }
}
