//! What holds of every price, list of quotes and table of venues, and what each limit is. Contracts stand on functions: what this
//! answers says nothing.
ghost use Rattle.market.specs.Limits.{MarketLimits};
ghost use Rattle.market.specs.Laws.{PriceGrid, EntryFits, SetsVenue, ClearsVenue, Tables, BestIsBest, QuotesRank, QuotesFit};

/// What each limit is; which prices and shares fit; what set and clear do, said by venue; what a table lists; the best price; how
/// quotes rank; which lists of quotes fit (docs/RULES.md, "Prices and shares", "Sides and quotes" and "The venue table").
pub fn market_laws() -> u8
    ensures limits { MarketLimits }
    ensures prices { PriceGrid }
    ensures entries { EntryFits }
    ensures sets { SetsVenue }
    ensures clears { ClearsVenue }
    ensures tables { Tables }
    ensures best { BestIsBest }
    ensures ranks { QuotesRank }
    ensures fits { QuotesFit }
{
    0
}
