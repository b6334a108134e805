//! Enter: what it asks, and how an order comes into its side's table.
ghost use Rattle.std.specs.Prelude.{◌≡◌, ◌+◌, ◌<◌, true, length};
ghost use Rattle.std.specs.Result.{result_err};
ghost use Rattle.market.specs.Questions.{first_no};
ghost use Rattle.orders.specs.Orders.{well_formed};
ghost use Rattle.engine.specs.States.{table_rows, SameTables, IsSized};
ghost use Rattle.engine.specs.Questions.{has_room, enter_questions};
ghost use Rattle.engine.specs.Effects.{granted, seated, order_held, order_used, with_used, enter};

use crate::answer::Answer;
use crate::limits::ORDER_ROWS;
use crate::state::Engine;
use crate::tables::Tables;
use market::{HigherFirst, LowerFirst, Refusal, Side};
use orders::{Order, OrderRow};
use ranking::{Ranking, seat};

// Seats a row in rank order among those in use, which are one more then.
fn seat_in<R: Ranking<OrderRow>>(rows: &mut [OrderRow], used: &mut usize, row: OrderRow)
    requires { used.old < length rows.old }
    ensures rows { rows.new ≡ seated R.ahead used.old row rows.old }
    ensures used { used.new ≡ used.old + 1 }
{
    seat::<OrderRow, R>(rows, *used, row);
    *used += 1;
}

impl Engine {
    // Whether an enter may come.
    pub(crate) fn may_enter(&self, tables: &Tables<'_>, order: Order) -> Result<(), Refusal>
        ensures { result_err result
            ≡ first_no (enter_questions self.now (table_rows tables.now) order) }
    {
        let (side, _) = order.well_formed().ok_or(Refusal::OrderForm)?;
        if self.is_on_book(tables, order.number) {
            return Err(Refusal::NumberTaken);
        }
        let used = match side {
            Side::Buy => self.used.buys,
            Side::Sell => self.used.sells,
        };
        if used >= ORDER_ROWS {
            return Err(Refusal::SideFull);
        }
        Ok(())
    }

    // Seats an order in rank order on its side.
    pub(crate) fn seat_order(&mut self, order: Order, tables: &mut Tables<'_>)
        requires sized { IsSized (table_rows tables.old) }
        requires formed { well_formed order ≡ true }
        requires room { has_room self.old order ≡ true }
        ensures engine { self.new ≡ with_used (order_used order self.old.used) self.old }
        ensures tables { table_rows tables.new
            ≡ order_held order self.old.used (table_rows tables.old) }
        ensures names { SameTables tables.old tables.new }
    {
        let row = OrderRow::from(order);
        match Side::try_from(order.side) {
            Ok(Side::Buy) => seat_in::<HigherFirst>(tables.buys, &mut self.used.buys, row),
            Ok(Side::Sell) => seat_in::<LowerFirst>(tables.sells, &mut self.used.sells, row),
            // The order is well formed; a struct of its own would say so for these three functions only.
            Err(_) => unreachable!(),
        }
    }

    // Seats one order.
    pub(crate) fn enter(&mut self, order: Order, tables: &mut Tables<'_>) -> Answer
        requires sized { IsSized (table_rows tables.old) }
        requires formed { well_formed order ≡ true }
        requires room { has_room self.old order ≡ true }
        ensures step { let h = table_rows tables.old in
            granted self.new (table_rows tables.new) result ≡ enter self.old h order }
        ensures names { SameTables tables.old tables.new }
    {
        self.seat_order(order, tables);
        Answer::Done
    }
}
