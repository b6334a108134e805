//! The best quote of a side: the highest bid, the lowest offer.
ghost use Rattle.std.specs.Prelude.{◌≡◌};
ghost use Rattle.market.specs.Markets.{quotes_on};
ghost use Rattle.market.specs.Best.{better_price, best_price};

use crate::side::Side;
use crate::source::QuoteSource;

// The better of two prices for a side.
fn better_price(side: Side, a: u32, b: u32) -> u32
    ensures { result ≡ better_price side a b }
{
    match side {
        Side::Buy => a.max(b),
        Side::Sell => a.min(b),
    }
}

/// The best price quoted on a side, in points: the highest bid, the lowest offer; none where nothing is quoted.
pub fn best_price<S: QuoteSource>(source: &S, side: Side) -> Option<u32>
    ensures { result ≡ best_price side (quotes_on side (S.meaning source.now)) }
{
    source
        .quotes(side)
        .map(|quote| quote.price)
        .reduce(|a, b| better_price(side, a, b))
}
