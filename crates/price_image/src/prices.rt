//! The prices at which shares stand in a book.
ghost use Rattle.std.specs.Prelude.{◌≡◌, ◌-◌};
ghost use Rattle.std.specs.Iterator.{at_most};
ghost use Rattle.market.specs.Limits.{highest_price};

use image::BookImage;
use market::HIGHEST_PRICE;
use pricing::BookView;

/// The prices above one, the lowest first, up to the highest price there is, which is not among them.
#[derive(Clone, Copy, Debug, PartialEq, Eq)]
pub struct Prices<'a> {
    book: BookImage<'a>,
    above: u32,
}

impl<'a> Prices<'a> {
    /// The prices of a book above one, in points.
    pub fn above(book: BookImage<'a>, price: u32) -> Prices<'a>
        ensures book { result.book ≡ book.entry }
        ensures price { result.above ≡ price }
    {
        Prices { book, above: price }
    }
}

impl Iterator for Prices<'_> {
    type Item = u32;

    ghost use Rattle.price_image.specs.Prices.{StepsUp};

    ghost next_gives = { StepsUp };

    ghost remaining = { λ s. at_most (highest_price - s.above) };

    fn next(&mut self) -> Option<u32> {
        let price = self.book.next_price(self.above);
        if price >= HIGHEST_PRICE || price <= self.above {
            return None;
        }
        self.above = price;
        Some(price)
    }
}
