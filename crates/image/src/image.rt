//! A book as a venue's program hands it over: bytes in memory, questioned by place, as a source of quotes and as a book.
ghost use Rattle.std.specs.Prelude.{◌≡◌, ◌+◌, ◌*◌, ◌≤◌, true, false, length, take, drop, MatchResult};
ghost use Rattle.market.specs.declared.refusal.Refusal.TheVariants.{ImageLayout};
ghost use Rattle.market.specs.Refusals.{answer_number};
ghost use Rattle.market.specs.Limits.{most_quotes};
ghost use Rattle.market.specs.Markets.{quotes_on};
ghost use Rattle.std.specs.List.{slice_get};
ghost use Rattle.image.specs.Limits.{word_length, most_entries};
ghost use Rattle.image.specs.Images.{is_image, image_book, Sized, orders_from, quotes_from, orders_on, orders_fit, image_market};

use crate::entries::Entries;
use crate::limits::{ENTRY, HEADER, MOST_ENTRIES, WORD};
use crate::words::word_at;
use market::{MOST_QUOTES, Quote, QuoteSource, Refusal, Side, best_price};
use pricing::{BookView, Level};

// How many entries each list of an image has.
#[derive(Clone, Copy, Debug, PartialEq, Eq)]
struct Sizes {
    buys: usize,
    sells: usize,
    bids: usize,
    offers: usize,
}

// The sizes of bytes that have the layout of an image.
impl TryFrom<&[u8]> for Sizes {
    type Error = Refusal;

    ghost try_from_gives = { λ bytes result. MatchResult result
        (λ z. (is_image bytes.now ≡ true) × Sized bytes.now z.buys z.sells z.bids z.offers)
        (λ e. (is_image bytes.now ≡ false) × (e ≡ ImageLayout)) };

    fn try_from(bytes: &[u8]) -> Result<Sizes, Refusal> {
        if bytes.len() < HEADER {
            return Err(Refusal::ImageLayout);
        }
        let buys = word_at(bytes, 0) as usize;
        let sells = word_at(bytes, 1) as usize;
        let bids = word_at(bytes, 2) as usize;
        let offers = word_at(bytes, 3) as usize;
        if buys > MOST_ENTRIES
            || sells > MOST_ENTRIES
            || bids > MOST_QUOTES
            || offers > MOST_QUOTES
        {
            return Err(Refusal::ImageLayout);
        }
        if bytes.len() != HEADER + ENTRY * (buys + sells + bids + offers) {
            return Err(Refusal::ImageLayout);
        }
        Ok(Sizes {
            buys,
            sells,
            bids,
            offers,
        })
    }
}

// The entries from `from` on, `count` of them, of the arrays of all prices and all shares.
fn part<'a>(prices: &'a [u8], shares: &'a [u8], from: usize, count: usize) -> Entries<'a>
    requires prices { word_length * (from + count) ≤ length prices.now }
    requires shares { word_length * (from + count) ≤ length shares.now }
    requires few { from + count ≤ most_entries + most_entries + most_quotes + most_quotes }
    ensures prices { result.prices.now ≡ take (word_length * count) (drop (word_length * from) prices.now) }
    ensures shares { result.shares.now ≡ take (word_length * count) (drop (word_length * from) shares.now) }
{
    Entries {
        prices: &prices[WORD * from..WORD * (from + count)],
        shares: &shares[WORD * from..WORD * (from + count)],
    }
}

/// A reader over the bytes of an image (docs/FORMATS.md). It reads the four sizes only: the bytes stay where they are, and a list is
/// cut out of them when it is asked for.
#[derive(Clone, Copy, Debug, PartialEq, Eq)]
pub struct BookImage<'a> {
    bytes: &'a [u8],
    sizes: Sizes,
    ghost sized: { Sized bytes.now sizes.buys sizes.sells sizes.bids sizes.offers },
}

impl<'a> BookImage<'a> {
    ghost use Rattle.image.specs.Readers.{reader_book, levels_of, quotes_of};
    ghost use Rattle.image.specs.Numbers.{read_number};

    /// The book in some bytes, or a refusal where they have not the layout of an image (25).
    pub fn read(bytes: &'a [u8]) -> Result<BookImage<'a>, Refusal>
        ensures book { MatchResult result
            (λ image. (is_image bytes.now ≡ true) × (reader_book image ≡ image_book bytes.now))
            (λ e. (is_image bytes.now ≡ false) × (e ≡ ImageLayout)) }
        ensures number { answer_number result ≡ read_number bytes.now }
    {
        let sizes = Sizes::try_from(bytes)?;
        Ok(BookImage { bytes, sizes })
    }

    // The entries from `from` on, `count` of them. The array of all shares begins in the middle of the bytes.
    fn entries(&self, from: usize, count: usize) -> Entries<'a>
        requires within { from + count
            ≤ self.now.sizes.buys + self.now.sizes.sells + self.now.sizes.bids + self.now.sizes.offers }
        requires few { count ≤ most_entries }
        ensures orders { levels_of result ≡ orders_from self.now.bytes.now from count }
        ensures quotes { quotes_of result ≡ quotes_from self.now.bytes.now from count }
    {
        let Sizes {
            buys,
            sells,
            bids,
            offers,
        } = self.sizes;
        let middle = HEADER + WORD * (buys + sells + bids + offers);
        let prices = &self.bytes[HEADER..middle];
        let shares = &self.bytes[middle..];
        part(prices, shares, from, count)
    }

    /// The orders of a side, in the order in which the image lists them.
    pub fn orders(&self, side: Side) -> Entries<'a>
        ensures { levels_of result ≡ orders_on side (reader_book self.now) }
    {
        let Sizes { buys, sells, .. } = self.sizes;
        match side {
            Side::Buy => self.entries(0, buys),
            Side::Sell => self.entries(buys, sells),
        }
    }

    // The quotes of a side.
    pub(crate) fn quoted(&self, side: Side) -> Entries<'a>
        ensures { quotes_of result ≡ quotes_on side (image_market (reader_book self.now)) }
    {
        let Sizes {
            buys,
            sells,
            bids,
            offers,
        } = self.sizes;
        match side {
            Side::Buy => self.entries(buys + sells, bids),
            Side::Sell => self.entries(buys + sells + bids, offers),
        }
    }

    /// The order at a place of a side, counted from 0: its price in points, and its shares; none past the end.
    pub fn order(&self, side: Side, place: usize) -> Option<Level>
        ensures { result ≡ slice_get (orders_on side (reader_book self.now)) place }
    {
        self.orders(side).get(place)
    }

    /// Whether each order has a permitted price, and shares that an order may have.
    pub fn orders_fit(&self) -> bool
        ensures { result ≡ orders_fit (reader_book self.now) }
    {
        self.orders(Side::Buy).fit() && self.orders(Side::Sell).fit()
    }
}

impl QuoteSource for BookImage<'_> {
    ghost use Rattle.image.specs.Readers.{reader_book};

    ghost meaning = { λ image. image_market (reader_book image) };

    fn count(&self, side: Side) -> usize {
        self.quoted(side).len()
    }

    fn quote(&self, side: Side, place: usize) -> Option<Quote> {
        self.quoted(side).quote(place)
    }

    fn halted(&self) -> bool {
        false
    }
}

impl BookView for BookImage<'_> {
    ghost use Rattle.image.specs.Readers.{reader_book};

    ghost book = { reader_book };

    fn executable(&self, side: Side, price: u32) -> u64 {
        self.orders(side).executable(side, price) + self.quoted(side).executable(side, price)
    }

    fn next_price(&self, price: u32) -> u32 {
        let buys = self.orders(Side::Buy).next_above(price);
        let sells = self.orders(Side::Sell).next_above(price);
        let bids = self.quoted(Side::Buy).next_above(price);
        let offers = self.quoted(Side::Sell).next_above(price);
        let orders = buys.min(sells);
        let quotes = bids.min(offers);
        orders.min(quotes)
    }

    fn best_quote(&self, side: Side) -> Option<u32> {
        best_price(self, side)
    }
}
