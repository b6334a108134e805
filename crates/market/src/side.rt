//! The two sides of a market: buys and bids, sells and offers.
ghost use Rattle.std.specs.Prelude.{◌≡◌, Some, ok_or};
ghost use Rattle.market.specs.Sides.{side_number, side_numbered, unknown_side, unknown_side_words};

use std::error::Error;
use std::fmt;

/// A side of a market, by the number that callers give (docs/RULES.md, "Sides and quotes").
#[derive(Clone, Copy, Debug, PartialEq, Eq, Hash)]
pub enum Side {
    /// 1: those who buy, with the buy orders and the bids.
    Buy = 1,
    /// 2: those who sell, with the sell orders and the offers.
    Sell = 2,
}

/// The answer to a number that is no side's, with that number.
#[derive(Clone, Copy, Debug, PartialEq, Eq, Hash)]
pub struct UnknownSide(pub u32);

// Written by hand: a derived Display has no contract.
impl fmt::Display for UnknownSide {
    ghost output = { λ unknown. Some (unknown_side_words unknown) };

    fn fmt<W: fmt::Write>(&self, f: &mut fmt::Formatter<W>) -> fmt::Result {
        let number = self.0;
        write!(f, "no side has the number {number}")
    }
}

impl Error for UnknownSide {}

impl From<Side> for u32 {
    ghost from_gives = { λ side number. number ≡ side_number side };

    fn from(side: Side) -> u32 {
        side as u32
    }
}

impl TryFrom<u32> for Side {
    type Error = UnknownSide;

    ghost try_from_gives = { λ number result.
        result ≡ ok_or (side_numbered number) (unknown_side number) };

    fn try_from(number: u32) -> Result<Side, UnknownSide> {
        match number {
            1 => Ok(Side::Buy),
            2 => Ok(Side::Sell),
            _ => Err(UnknownSide(number)),
        }
    }
}
