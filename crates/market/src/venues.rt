//! A table of outside venues, as a source of quotes: at most one bid and one offer for each venue, and whether trading is halted.
ghost use Rattle.std.specs.Prelude.{◌≡◌, ◌≤◌, true, false, [], length, is_ok, IfOk, IfErr, OnOk};
ghost use Rattle.std.specs.List.{slice_get};
ghost use Rattle.market.specs.Limits.{venues};
ghost use Rattle.market.specs.Markets.{quotes_on};
ghost use Rattle.market.specs.Sides.{side_number};
ghost use Rattle.market.specs.Refusals.{answer_number};
ghost use Rattle.market.specs.Listings.{quotes_listed, WellListed};
ghost use Rattle.market.specs.ListingLaws.{WellListed-prop};
ghost use Rattle.market.specs.declared.refusal.Refusal.TheVariants.{VenueOrSide};

use crate::limits::VENUES;
use crate::price::entry_fits;
use crate::quote::Quote;
use crate::refusal::Refusal;
use crate::side::Side;
use crate::source::QuoteSource;
use crate::terms::QuoteTerms;

/// A table of venues, in fixed memory: a slot of each side for each venue, the first one that of venue 1. Whoever has a table knows
/// what each side lists: quotes by rising venue, each venue from 1 to the last one, each quote fit (docs/RULES.md, "The venue table").
#[derive(Clone, Copy, Debug, PartialEq, Eq, Hash)]
pub struct VenueTable {
    bids: [Option<QuoteTerms>; VENUES],
    offers: [Option<QuoteTerms>; VENUES],
    halted: bool,
    /// What the bids list is by rising venue, and fits.
    pub ghost bids_listed: { WellListed (quotes_listed 1 bids) } by { WellListed-prop (quotes_listed 1 bids) },
    /// What the offers list is by rising venue, and fits.
    pub ghost offers_listed: { WellListed (quotes_listed 1 offers) } by { WellListed-prop (quotes_listed 1 offers) },
}

// How many slots hold the terms of a quote. A loop, here and below: each close and each begin count and look for quotes, and by chains
// (`filter` and `count`, `filter_map` and `nth`) that took up to three times as long.
fn count_listed(slots: &[Option<QuoteTerms>; VENUES]) -> usize
    ensures { result ≡ length (quotes_listed 1 slots.now) }
{
    let mut count = 0;
    for slot in slots {
        if slot.is_some() {
            count += 1;
        }
    }
    count
}

// The quote at a place among those that the slots list.
fn listed_at(slots: &[Option<QuoteTerms>; VENUES], place: usize) -> Option<Quote>
    ensures { result ≡ slice_get (quotes_listed 1 slots.now) place }
{
    let mut left = place;
    for (slot, terms) in slots.iter().enumerate() {
        if let Some(terms) = terms {
            if left == 0 {
                return Some(terms.quote(slot as u32 + 1));
            }
            left -= 1;
        }
    }
    None
}

impl VenueTable {
    // What names the struct stands here: a fact of the struct may not lead back to it.
    ghost use Rattle.market.specs.Venues.{is_place, market_in, changed, with_terms, ByVenue, set_answer, clear_answer, set_number, clear_number, after_set, after_clear};
    ghost use Rattle.market.specs.Laws.{Changes};

    /// The table in which nothing is quoted, and trading is not halted.
    pub fn new() -> VenueTable
        ensures { market_in result ≡ record { bids = []; offers = []; halted = false } }
    {
        VenueTable {
            bids: [None; VENUES],
            offers: [None; VENUES],
            halted: false,
        }
    }

    /// Puts a venue's quote on a side, 1 for bids and 2 for offers, in the place of the one that it had. The price is in points.
    /// Refused with `VenueOrSide` (27) where there is no such venue or side, then with `QuoteValue` (28) where no quote may have the
    /// price or the shares; nothing changes then.
    pub fn set(&mut self, venue: u32, side: u32, price: u32, shares: u32) -> Result<(), Refusal>
        ensures answer { result ≡ set_answer venue side price shares }
        ensures number { answer_number result ≡ set_number venue side price shares }
        ensures market { market_in self.new
            ≡ after_set (is_ok result) venue side price shares (market_in self.old) }
        ensures venues { let q = Some (record { price = price; shares = shares; venue = venue })
            in OnOk result (Changes venue side q (market_in self.old) (market_in self.new)) }
        ensures refused { is_ok result ≡ false → self.new ≡ self.old }
        ensures listed { ByVenue (market_in self.new) }
    {
        let side = VenueTable::quoting_side(venue, side)?;
        if !entry_fits(price, shares) {
            return Err(Refusal::QuoteValue);
        }
        self.put(side, venue, Some(QuoteTerms { price, shares }));
        Ok(())
    }

    /// Takes a venue's quote off a side, 1 for bids and 2 for offers, if it has one there. Refused with `VenueOrSide` (27) where there
    /// is no such venue or side; nothing changes then.
    pub fn clear(&mut self, venue: u32, side: u32) -> Result<(), Refusal>
        ensures answer { result ≡ clear_answer venue side }
        ensures number { answer_number result ≡ clear_number venue side }
        ensures market { market_in self.new
            ≡ after_clear (is_ok result) venue side (market_in self.old) }
        ensures venues { OnOk result
            (Changes venue side None (market_in self.old) (market_in self.new)) }
        ensures refused { is_ok result ≡ false → self.new ≡ self.old }
        ensures listed { ByVenue (market_in self.new) }
    {
        let side = VenueTable::quoting_side(venue, side)?;
        self.put(side, venue, None);
        Ok(())
    }

    /// Halts trading in the security, or lets it go on. The quotes stay.
    pub fn set_halted(&mut self, halted: bool)
        ensures market { market_in self.new ≡ record (market_in self.old) { halted = halted } }
        ensures listed { ByVenue (market_in self.new) }
    {
        self.halted = halted;
    }

    // The side of a number, for a venue's quote: 1 for bids, 2 for offers. A venue may send any numbers: each that is none has its
    // answer.
    fn quoting_side(venue: u32, side: u32) -> Result<Side, Refusal>
        ensures granted { is_ok result ≡ is_place venue side }
        ensures ok { IfOk result (λ s. (side_number s ≡ side) × (1 ≤ venue) × (venue ≤ venues)) }
        ensures err { IfErr result (λ refusal. refusal ≡ VenueOrSide) }
    {
        match Side::try_from(side) {
            Ok(side) if (1..=VENUES as u32).contains(&venue) => Ok(side),
            _ => Err(Refusal::VenueOrSide),
        }
    }

    // Puts the terms of a quote in a venue's slot of a side, or takes out those that are there.
    fn put(&mut self, side: Side, venue: u32, terms: Option<QuoteTerms>)
        requires least { 1 ≤ venue }
        requires most { venue ≤ venues }
        ensures { market_in self.new
            ≡ changed true (side_number side) (with_terms venue terms) (market_in self.old) }
    {
        let slot = venue as usize - 1;
        match side {
            Side::Buy => self.bids[slot] = terms,
            Side::Sell => self.offers[slot] = terms,
        }
    }

    fn slots(&self, side: Side) -> &[Option<QuoteTerms>; VENUES]
        ensures { quotes_listed 1 result.now ≡ quotes_on side (market_in self.now) }
    {
        match side {
            Side::Buy => &self.bids,
            Side::Sell => &self.offers,
        }
    }
}

impl Default for VenueTable {
    ghost use Rattle.market.specs.Venues.{market_in};

    ghost is_default = { λ table. market_in table ≡ record { bids = []; offers = []; halted = false } };

    fn default() -> VenueTable {
        VenueTable::new()
    }
}

impl QuoteSource for VenueTable {
    ghost use Rattle.market.specs.Venues.{market_in};

    ghost meaning = { market_in };

    fn count(&self, side: Side) -> usize {
        count_listed(self.slots(side))
    }

    fn quote(&self, side: Side, place: usize) -> Option<Quote> {
        listed_at(self.slots(side), place)
    }

    fn halted(&self) -> bool {
        self.halted
    }
}
