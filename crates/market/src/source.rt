//! Where quotes come from. A source means a market; its three questions answer just that.
ghost use Rattle.std.specs.Prelude.{◌≡◌, length};
ghost use Rattle.std.specs.List.{slice_get};
ghost use Rattle.market.specs.Markets.{Market, quotes_on};
ghost use Rattle.market.specs.Quotes.{quotes_left};

use crate::quote::Quote;
use crate::quotes::Quotes;
use crate::side::Side;

/// A source of outside quotes (docs/RULES.md, "Sides and quotes"). Who implements it says by `meaning` which market a source means,
/// the bids and the offers in the order of its places and whether trading is halted, and owes an answer to each of the three
/// questions out of just that market. The market need not fit: `quotes_fit` tells, and who asks for quotes asks that first.
pub trait QuoteSource {
    /// The market that a source means.
    ghost meaning: { Self → Market };

    /// How many quotes it lists on a side, the length of that side's list.
    fn count(&self, side: Side) -> usize
        ensures { result ≡ length (quotes_on side (meaning self.now)) };

    /// The quote at a place of a side's list, counted from 0: one at each place below `count`, none from there on.
    fn quote(&self, side: Side, place: usize) -> Option<Quote>
        ensures { result ≡ slice_get (quotes_on side (meaning self.now)) place };

    /// Whether trading in the security is halted. A halted source may list quotes.
    fn halted(&self) -> bool
        ensures { result ≡ (meaning self.now).halted };

    /// The quotes of a side, one after another in the order of their places: nobody implements this.
    final fn quotes(&self, side: Side) -> Quotes<'_, Self>
        ensures { quotes_left meaning result ≡ quotes_on side (meaning self.now) }
    {
        Quotes {
            source: self,
            side,
            places: 0..self.count(side),
        }
    }
}
