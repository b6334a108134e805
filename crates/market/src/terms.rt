//! What a venue quotes on a side, in its slot of a table.
ghost use Rattle.std.specs.Prelude.{◌≡◌, true};
ghost use Rattle.market.specs.Prices.{fits};

use crate::quote::Quote;

// The price, in points, and the shares of a quote, which a quote may have. (`Level`, in a crate above this, is what can trade.)
#[derive(Clone, Copy, Debug, PartialEq, Eq, Hash)]
pub(crate) struct QuoteTerms {
    pub(crate) price: u32,
    pub(crate) shares: u32,
    ghost fit: { fits price shares ≡ true },
}

impl QuoteTerms {
    ghost use Rattle.market.specs.Listings.{quote_of};

    // The quote of the venue that quotes these terms.
    pub(crate) fn quote(self, venue: u32) -> Quote
        ensures { result ≡ quote_of self venue }
    {
        Quote {
            price: self.price,
            shares: self.shares,
            venue,
        }
    }
}
