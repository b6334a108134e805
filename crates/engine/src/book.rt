//! The book that a close prices: the rows in use, and the quotes as the source lists them.
ghost use Rattle.std.specs.Prelude.{◌≤◌, length};
ghost use Rattle.engine.specs.Limits.{order_rows};

use crate::listed::Listed;
use market::{Side, best_price};
use orders::OrderRow;
use pricing::{BookView, executable, next_above};

#[derive(Clone, Copy)]
pub(crate) struct TableBook<'a> {
    pub(crate) buys: &'a [OrderRow],
    pub(crate) sells: &'a [OrderRow],
    pub(crate) quotes: Listed<'a>,
    ghost buys_few: { length buys.now ≤ order_rows },
    ghost sells_few: { length sells.now ≤ order_rows },
}

impl BookView for TableBook<'_> {
    ghost use Rattle.engine.specs.Books.{table_book};

    ghost book = { table_book };

    fn executable(&self, side: Side, price: u32) -> u64 {
        let rows = match side {
            Side::Buy => self.buys,
            Side::Sell => self.sells,
        };
        executable(side, rows, price) + executable(side, self.quotes.on(side), price)
    }

    fn next_price(&self, price: u32) -> u32 {
        let orders = next_above(self.buys, price).min(next_above(self.sells, price));
        let bids = next_above(self.quotes.bids, price);
        let offers = next_above(self.quotes.offers, price);
        orders.min(bids.min(offers))
    }

    fn best_quote(&self, side: Side) -> Option<u32> {
        best_price(&self.quotes, side)
    }
}
