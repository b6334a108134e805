//! One list of an image: the prices and the shares of its entries, as two parts of the image's bytes.
ghost use Rattle.std.specs.Prelude.{◌≡◌, ◌+◌, ◌*◌, ◌<◌, ◌≤◌, length};
ghost use Rattle.std.specs.Iterator.{YieldsFirst, item_count};
ghost use Rattle.std.specs.List.{slice_get, list_all};
ghost use Rattle.pricing.specs.Limits.{most_executable};
ghost use Rattle.pricing.specs.Books.{levels, executable_at};
ghost use Rattle.pricing.specs.Ranges.{next_above};
ghost use Rattle.image.specs.Limits.{word_length, most_entries};
ghost use Rattle.image.specs.Entries.{length_in, level_fits};

use crate::limits::{MOST_ENTRIES, WORD};
use crate::words::word_at;
use market::{HIGHEST_PRICE, Quote, Side, entry_fits};
use pricing::Level;

// An entry as a quote, whose venue is its place plus 1: no conversion, since the entry does not know its place.
fn quote_of(level: Level, place: usize) -> Quote
    requires { place < most_entries }
    ensures { result ≡ record { price = level.price; shares = level.shares; venue = place + 1 } }
{
    Quote {
        price: level.price,
        shares: level.shares,
        venue: place as u32 + 1,
    }
}

// Whether an entry has a permitted price, and shares that an order may have.
fn fits(level: Level) -> bool
    ensures { result ≡ level_fits level }
{
    entry_fits(level.price, level.shares)
}

/// A list of an image: orders or quotes of a side. All prices of an image come before all shares, so the two words of an entry lie
/// in two places (docs/FORMATS.md).
#[derive(Clone, Copy, Debug, PartialEq, Eq)]
pub struct Entries<'a> {
    pub(crate) prices: &'a [u8],
    pub(crate) shares: &'a [u8],
}

impl<'a> Entries<'a> {
    ghost use Rattle.image.specs.Readers.{levels_of, quotes_of, levels_left};

    /// How many entries it has: one for each word of both parts.
    pub fn len(&self) -> usize
        ensures is { result ≡ length (levels_of self.now) }
        ensures sized { result ≡ length_in self.now.prices.now self.now.shares.now }
        ensures few { result ≤ most_entries }
        ensures prices { word_length * result ≤ length self.now.prices.now }
        ensures shares { word_length * result ≤ length self.now.shares.now }
    {
        (self.prices.len() / WORD)
            .min(self.shares.len() / WORD)
            .min(MOST_ENTRIES)
    }

    /// The entry at a place, counted from 0: its price in points, and its shares; none past the end.
    pub fn get(&self, place: usize) -> Option<Level>
        ensures { result ≡ slice_get (levels_of self.now) place }
    {
        if place >= self.len() {
            return None;
        }
        Some(Level {
            price: word_at(self.prices, place),
            shares: word_at(self.shares, place),
        })
    }

    /// The entry at a place, counted from 0, as a quote whose venue is its place plus 1; none past the end.
    pub fn quote(&self, place: usize) -> Option<Quote>
        ensures { result ≡ slice_get (quotes_of self.now) place }
    {
        let level = self.get(place)?;
        Some(quote_of(level, place))
    }

    /// Its entries in their order.
    pub fn levels(&self) -> Levels<'a>
        ensures { levels_left result ≡ levels_of self.now }
    {
        Levels {
            entries: *self,
            place: 0,
        }
    }

    /// The shares of a side that can trade at a price, in points: `executable` of slices in the words of an iterator, here and in
    /// `next_above`. One function over any iterator of levels would have to say what it yields, in more lines than these chains have.
    pub fn executable(&self, side: Side, price: u32) -> u64
        ensures is { result ≡ executable_at side price (levels_of self.now) }
        ensures quoted { result ≡ executable_at side price (levels (quotes_of self.now)) }
        ensures few { result ≤ most_executable }
    {
        self.levels()
            .map(|level| u64::from(level.executable(side, price)))
            .sum()
    }

    /// The lowest price above `price` at which shares stand, in points, at most the highest price there is.
    pub fn next_above(&self, price: u32) -> u32
        ensures is { result ≡ next_above price (levels_of self.now) }
        ensures quoted { result ≡ next_above price (levels (quotes_of self.now)) }
    {
        self.levels()
            .map(|level| level.standing_above(price))
            .fold(HIGHEST_PRICE, |least, next| least.min(next))
    }

    /// Whether each entry has a permitted price, and shares that an order may have.
    pub fn fit(&self) -> bool
        ensures { result ≡ list_all level_fits (levels_of self.now) }
    {
        self.levels().fold(true, |ok, level| ok & fits(level))
    }
}

/// The entries of a list from a place on, as an iterator that reads the bytes place by place.
#[derive(Clone, Copy, Debug, PartialEq, Eq)]
pub struct Levels<'a> {
    entries: Entries<'a>,
    place: usize,
}

impl Iterator for Levels<'_> {
    type Item = Level;

    ghost use Rattle.image.specs.Readers.{levels_left};

    ghost next_gives = { YieldsFirst levels_left };

    ghost remaining = { item_count levels_left };

    fn next(&mut self) -> Option<Level> {
        let level = self.entries.get(self.place)?;
        self.place += 1;
        Some(level)
    }
}
