//! Whatever can be questioned about a book: an image, or the tables of an engine.
ghost use Rattle.std.specs.Prelude.{◌≡◌};
ghost use Rattle.market.specs.Best.{best_price};
ghost use Rattle.pricing.specs.Books.{Book, demand_at, supply_at, shares_at, count_at};
ghost use Rattle.pricing.specs.Ranges.{next_price};
ghost use Rattle.pricing.specs.Outcomes.{best_on};

use market::Side;

/// A book that answers for its demand and supply (docs/RULES.md, "The count"). It means orders and quotes in any order.
pub trait BookView {
    ghost book: { Self → Book };

    /// The shares of a side that can trade at a price, in points: of buys and bids at it or higher, of sells and offers at it or
    /// lower.
    fn executable(&self, side: Side, price: u32) -> u64
        ensures { result ≡ shares_at side (book self.now) price };

    /// The shares of buys and bids at a price or higher.
    final fn demand(&self, price: u32) -> u64
        ensures { result ≡ demand_at (book self.now) price }
    {
        self.executable(Side::Buy, price)
    }

    /// The shares of sells and offers at a price or lower.
    final fn supply(&self, price: u32) -> u64
        ensures { result ≡ supply_at (book self.now) price }
    {
        self.executable(Side::Sell, price)
    }

    /// How many shares find both a buyer and a seller at a price.
    final fn count_at(&self, price: u32) -> u64
        ensures { result ≡ count_at (book self.now) price }
    {
        self.demand(price).min(self.supply(price))
    }

    /// The lowest price above `price` at which shares stand, in points, at most the highest price there is.
    fn next_price(&self, price: u32) -> u32
        ensures { result ≡ next_price (book self.now) price };

    /// The best price quoted on a side, in points: the highest bid, the lowest offer; none where nothing is quoted.
    fn best_quote(&self, side: Side) -> Option<u32>
        ensures { result ≡ best_on side (book self.now) };
}
