//! The quotes of a side of a source, one after another.
ghost use Rattle.std.specs.Iterator.{YieldsFirst, item_count};
ghost use Rattle.market.specs.Quotes.{quotes_left};

use crate::quote::Quote;
use crate::side::Side;
use crate::source::QuoteSource;
use std::ops::Range;

/// Asks the source for each quote as it comes.
#[derive(Drop)]
pub struct Quotes<'a, S> {
    pub(crate) source: &'a S,
    pub(crate) side: Side,
    pub(crate) places: Range<usize>,
}

impl<'a, S: QuoteSource> Iterator for Quotes<'a, S> {
    type Item = Quote;

    ghost next_gives = { YieldsFirst (quotes_left S.meaning) };

    ghost remaining = { item_count (quotes_left S.meaning) };

    fn next(&mut self) -> Option<Quote> {
        let place = self.places.next()?;
        self.source.quote(self.side, place)
    }
}
