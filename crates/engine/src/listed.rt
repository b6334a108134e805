//! The quotes that a close found on both sides, and whether trading is halted.
ghost use Rattle.std.specs.Prelude.{◌≡◌, ◌≤◌, length};
ghost use Rattle.engine.specs.Limits.{quote_rows};

use market::{Quote, QuoteSource, Side};

#[derive(Clone, Copy)]
pub(crate) struct Listed<'a> {
    pub(crate) bids: &'a [Quote],
    pub(crate) offers: &'a [Quote],
    pub(crate) halted: bool,
    ghost bids_few: { length bids.now ≤ quote_rows },
    ghost offers_few: { length offers.now ≤ quote_rows },
}

impl Listed<'_> {
    ghost use Rattle.market.specs.Markets.{quotes_on};
    ghost use Rattle.engine.specs.Books.{listed_market};

    // The quotes of a side.
    pub(crate) fn on(&self, side: Side) -> &[Quote]
        ensures { result.now ≡ quotes_on side (listed_market self.now) }
    {
        match side {
            Side::Buy => self.bids,
            Side::Sell => self.offers,
        }
    }
}

impl QuoteSource for Listed<'_> {
    ghost use Rattle.engine.specs.Books.{listed_market};

    ghost meaning = { listed_market };

    fn count(&self, side: Side) -> usize {
        self.on(side).len()
    }

    fn quote(&self, side: Side, place: usize) -> Option<Quote> {
        self.on(side).get(place).copied()
    }

    fn halted(&self) -> bool {
        self.halted
    }
}
