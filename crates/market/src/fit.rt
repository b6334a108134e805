//! Whether the quotes of a source fit.
ghost use Rattle.std.specs.Prelude.{◌≡◌};
ghost use Rattle.market.specs.Markets.{quotes_on};
ghost use Rattle.market.specs.Fits.{quote_fits, side_fits, quotes_fit};

use crate::limits::MOST_QUOTES;
use crate::price::entry_fits;
use crate::quote::Quote;
use crate::quotes::Quotes;
use crate::side::Side;
use crate::source::QuoteSource;

fn quote_fits(quote: Quote) -> bool
    ensures { result ≡ quote_fits quote }
{
    entry_fits(quote.price, quote.shares)
}

// At most as many quotes on a side as a source may list, each with a price and shares that a quote may have.
fn side_fits<S: QuoteSource>(source: &S, side: Side) -> bool
    ensures { result ≡ side_fits (quotes_on side (S.meaning source.now)) }
{
    // Counted once: `quotes` would count again.
    let count = source.count(side);
    let mut quotes = Quotes {
        source,
        side,
        places: 0..count,
    };
    count <= MOST_QUOTES && quotes.all(quote_fits)
}

/// Whether both sides of a source fit: no more quotes than a source may list, each with a price and shares that a quote may have
/// (docs/RULES.md, "Sides and quotes").
pub fn quotes_fit<S: QuoteSource>(source: &S) -> bool
    ensures { result ≡ quotes_fit (S.meaning source.now) }
{
    side_fits(source, Side::Buy) && side_fits(source, Side::Sell)
}
