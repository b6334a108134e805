//! Shares that stand at a price, and what has such shares: a quote, the row of an order.
ghost use Rattle.std.specs.Prelude.{◌≡◌, ◌≤◌, map, length};
ghost use Rattle.market.specs.Limits.{most_orders};
ghost use Rattle.pricing.specs.Limits.{most_executable};
ghost use Rattle.pricing.specs.Books.{quote_level, executable_shares, executable_at};
ghost use Rattle.pricing.specs.Ranges.{standing_above, next_above};

use market::{HIGHEST_PRICE, Quote, Side};

/// Shares at a price, whoever wants or offers them.
#[derive(Clone, Copy, Debug, PartialEq, Eq)]
pub struct Level {
    /// The price, in points.
    pub price: u32,
    /// How many shares.
    pub shares: u32,
}

impl Level {
    /// Its shares, where they can trade at `price`, in points, else 0: what is not reached adds nothing to a sum. Buys trade at their
    /// price or lower, sells at theirs or higher.
    pub fn executable(self, side: Side, price: u32) -> u32
        ensures { result ≡ executable_shares side price self }
    {
        let reached = match side {
            Side::Buy => price <= self.price,
            Side::Sell => self.price <= price,
        };
        if reached { self.shares } else { 0 }
    }

    /// Its price, where it has shares above `price`, else the highest price there is, with which the least of many begins.
    pub fn standing_above(self, price: u32) -> u32
        ensures { result ≡ standing_above price self }
    {
        if price < self.price && 0 < self.shares {
            self.price
        } else {
            HIGHEST_PRICE
        }
    }
}

/// What has shares at a price: a quote, the row of an order.
pub trait AsLevel {
    ghost use Rattle.pricing.specs.declared.level.Level.{Level};

    ghost level: { Self → Level };

    /// Its price, and the shares that it has there.
    fn level(&self) -> Level
        ensures { result ≡ level self.now };
}

impl AsLevel for Quote {
    ghost level = { quote_level };

    fn level(&self) -> Level {
        Level {
            price: self.price,
            shares: self.shares,
        }
    }
}

/// The shares of a side that can trade at a price, in points (docs/RULES.md, "The count"): of at most as many entries as a side has
/// orders, so that their sum fits. It cuts nothing: whoever brings a table of any length cuts it in sight.
pub fn executable<T: AsLevel>(side: Side, entries: &[T], price: u32) -> u64
    requires few { length entries.now ≤ most_orders }
    ensures is { result ≡ executable_at side price (map T.level entries.now) }
    ensures few { result ≤ most_executable }
{
    entries
        .iter()
        .map(|entry| u64::from(entry.level().executable(side, price)))
        .sum()
}

/// The lowest price above `price` at which shares stand, in points, at most the highest price there is.
pub fn next_above<T: AsLevel>(entries: &[T], price: u32) -> u32
    ensures { result ≡ next_above price (map T.level entries.now) }
{
    entries
        .iter()
        .map(|entry| entry.level().standing_above(price))
        .fold(HIGHEST_PRICE, |least, next| least.min(next))
}
