//! What stood at the close: the rows before it, and the quotes that it read.
ghost use Rattle.std.specs.Prelude.{◌≡◌, ◌+◌, ◌-◌, ◌≤◌, if◌then◌else◌, nat_le, nat_lt};
ghost use Rattle.market.specs.Limits.{highest_price, dollar, fine_step, cent};
ghost use Rattle.pricing.specs.Counting.{counting_book};
ghost use Rattle.pricing.specs.Books.{demand_at, supply_at, shares_at, count_at};
ghost use Rattle.engine.specs.Books.{book_from};
ghost use Rattle.desk.specs.Depths.{depth_book};

use crate::memory::Memory;
use engine::{ORDER_ROWS, QUOTE_ROWS};
use market::{CENT, DOLLAR, FINE_STEP, Quote, Side};
use orders::OrderRow;
use pricing::executable;

/// What can trade at a close: the orders as it found them, and the quotes that it noted. No `BookView`: its quote rows may be empty,
/// and an empty row would be a quote of price 0, which no best price may be.
#[derive(Clone, Copy, Debug, PartialEq, Eq)]
pub struct Depth {
    /// The rows of the buys before the close.
    pub buys: [OrderRow; ORDER_ROWS],
    /// The rows of the sells before the close.
    pub sells: [OrderRow; ORDER_ROWS],
    /// The rows of the bids that the close noted.
    pub bids: [Quote; QUOTE_ROWS],
    /// The rows of the offers that the close noted.
    pub offers: [Quote; QUOTE_ROWS],
}

impl Depth {
    /// The rows of the buys and the sells before a close, and the quotes that a memory has after it.
    pub fn at_close(
        buys: &[OrderRow; ORDER_ROWS],
        sells: &[OrderRow; ORDER_ROWS],
        after: &Memory,
    ) -> Depth
        ensures { let book = book_from buys.now sells.now after.now.bids after.now.offers in
            depth_book result ≡ counting_book book }
    {
        Depth {
            buys: *buys,
            sells: *sells,
            bids: after.bids,
            offers: after.offers,
        }
    }

    // The shares of a side that can trade at a price.
    fn executable(&self, side: Side, price: u32) -> u64
        ensures { result ≡ shares_at side (depth_book self.now) price }
    {
        let (rows, quotes) = match side {
            Side::Buy => (&self.buys, &self.bids),
            Side::Sell => (&self.sells, &self.offers),
        };
        executable(side, rows, price) + executable(side, quotes, price)
    }

    /// The shares of buys and bids at a price, in points, or higher.
    pub fn demand(&self, price: u32) -> u64
        ensures { result ≡ demand_at (depth_book self.now) price }
    {
        self.executable(Side::Buy, price)
    }

    /// The shares of sells and offers at a price, in points, or lower.
    pub fn supply(&self, price: u32) -> u64
        ensures { result ≡ supply_at (depth_book self.now) price }
    {
        self.executable(Side::Sell, price)
    }

    /// The shares that find both a buyer and a seller at a price, in points, as of a book that can be viewed.
    pub fn count(&self, price: u32) -> u64
        ensures { result ≡ count_at (depth_book self.now) price }
    {
        self.demand(price).min(self.supply(price))
    }
}

/// The price one step below a permitted one, in points; 0 below the lowest.
pub fn step_below(price: u32) -> u32
    ensures { result ≡ price - (if nat_le price dollar then fine_step else cent) }
{
    let step = if price <= DOLLAR { FINE_STEP } else { CENT };
    price.saturating_sub(step)
}

/// The price one step above a permitted one, in points. At a dollar the step above is another than the step below.
pub fn step_above(price: u32) -> u32
    ensures { price ≤ highest_price → result
        ≡ price + (if nat_lt price dollar then fine_step else cent) }
{
    let step = if price < DOLLAR { FINE_STEP } else { CENT };
    price.saturating_add(step)
}
