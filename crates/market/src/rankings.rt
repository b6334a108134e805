//! How quotes rank: bids by higher price, offers by lower price, then by lower venue.
ghost use Rattle.std.specs.Prelude.{◌≡◌, ℕ, Bool};
ghost use Rattle.market.specs.Rankings.{higher, lower, quote_ahead, IsPriceOrder};
ghost use Rattle.market.specs.RankingLaws.{higher_laws, lower_laws, quote_apart, quote_through, quote_level};

use crate::quote::Quote;
use ranking::Ranking;
use std::marker::PhantomData;

/// Which of two prices is the better one.
pub trait PriceOrder {
    /// Whether the first price is better than the second.
    ghost better: { ℕ → ℕ → Bool };

    /// Whether price `a` is better than price `b`, both in points.
    fn is_better(a: u32, b: u32) -> bool
        ensures { result ≡ better a b };

    /// Of two different prices one is the better, and what is better than a price is better than all that it is better than.
    ghost laws: { IsPriceOrder better };
}

/// The higher price is the better one, as for those who buy.
#[derive(Clone, Copy, Debug, PartialEq, Eq, Hash)]
pub struct Higher;

impl PriceOrder for Higher {
    ghost better = { higher };

    ghost laws = { higher_laws };

    fn is_better(a: u32, b: u32) -> bool {
        b < a
    }
}

/// The lower price is the better one, as for those who sell.
#[derive(Clone, Copy, Debug, PartialEq, Eq, Hash)]
pub struct Lower;

impl PriceOrder for Lower {
    ghost better = { lower };

    ghost laws = { lower_laws };

    fn is_better(a: u32, b: u32) -> bool {
        a < b
    }
}

/// The better price goes first, and at one price the lower venue, or what another crate ranks by (docs/RULES.md, "Rank order").
#[derive(Clone, Copy, Debug, PartialEq, Eq, Hash)]
pub struct ByPrice<P> {
    /// Which of two prices is the better one.
    pub order: PhantomData<P>,
}

/// As the bids rank.
pub type HigherFirst = ByPrice<Higher>;

/// As the offers rank.
pub type LowerFirst = ByPrice<Lower>;

impl<P: PriceOrder> Ranking<Quote> for ByPrice<P> {
    ghost ahead = { quote_ahead P.better };

    ghost apart = { quote_apart P.better P.laws };

    ghost through = { quote_through P.better P.laws };

    ghost level = { quote_level P.better P.laws };

    fn is_ahead(a: &Quote, b: &Quote) -> bool {
        if a.price == b.price {
            a.venue < b.venue
        } else {
            P::is_better(a.price, b.price)
        }
    }
}
