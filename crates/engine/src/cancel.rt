//! Cancel: what it asks, and how the rest of an order is cancelled.
ghost use Rattle.std.specs.Prelude.{◌≡◌, is_some, IfSome};
ghost use Rattle.std.specs.Result.{result_err};
ghost use Rattle.market.specs.Questions.{first_no};
ghost use Rattle.orders.specs.Tables.{available};
ghost use Rattle.engine.specs.States.{table_rows, SameTables};
ghost use Rattle.engine.specs.Questions.{on_book, rest_of, cancel_questions};
ghost use Rattle.engine.specs.Effects.{granted, cancel};

use crate::answer::Answer;
use crate::state::Engine;
use crate::tables::{Tables, place_in};
use market::{Refusal, Side};
use orders::{OrderRecord, OrderRow, cancel_at, has_number};
use ranking::first_rows;

// The rest that can be moved: none where the counts of the row do not add up.
fn rest_of(row: OrderRow) -> u32
    ensures { result ≡ available row }
{
    OrderRecord::try_from(row).map_or(0, |_| row.rest)
}

impl Engine {
    // Whether an order with a number stands on a side of the book.
    pub(crate) fn is_on_book(&self, tables: &Tables<'_>, number: u32) -> bool
        ensures { result ≡ on_book self.now (table_rows tables.now) number }
    {
        has_number(first_rows(&*tables.buys, self.used.buys), number)
            || has_number(first_rows(&*tables.sells, self.used.sells), number)
    }

    // The rest of the order with a number, where it stands on a side of the book.
    fn rest(&self, tables: &Tables<'_>, number: u32) -> Option<u32>
        ensures found { is_some result ≡ on_book self.now (table_rows tables.now) number }
        ensures rest { IfSome result
            (λ rest. rest ≡ rest_of self.now (table_rows tables.now) number) }
    {
        let buys = first_rows(&*tables.buys, self.used.buys);
        let sells = first_rows(&*tables.sells, self.used.sells);
        let row = match place_in(buys, sells, number)? {
            (Side::Buy, place) => buys[place],
            (Side::Sell, place) => sells[place],
        };
        Some(rest_of(row))
    }

    // Whether a cancel may come.
    pub(crate) fn may_cancel(&self, tables: &Tables<'_>, number: u32) -> Result<(), Refusal>
        ensures { result_err result
            ≡ first_no (cancel_questions self.now (table_rows tables.now) number) }
    {
        match self.rest(tables, number) {
            None => Err(Refusal::UnknownOrder),
            Some(0) => Err(Refusal::NoRest),
            Some(_) => Ok(()),
        }
    }

    // Cancels the rest of the order with a number.
    pub(crate) fn cancel(&self, number: u32, tables: &mut Tables<'_>) -> Answer
        ensures step { let h = table_rows tables.old in
            granted self.now (table_rows tables.new) result ≡ cancel self.now h number }
        ensures names { SameTables tables.old tables.new }
    {
        let shares = match tables.place(self.used, number) {
            Some((Side::Buy, place)) => cancel_at(tables.buys, place),
            Some((Side::Sell, place)) => cancel_at(tables.sells, place),
            None => 0,
        };
        Answer::Cancelled {
            shares: u64::from(shares),
        }
    }
}
