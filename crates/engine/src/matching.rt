//! Match: what it asks, and how both sides are executed at the price that was fixed.
ghost use Rattle.std.specs.Prelude.{◌≡◌};
ghost use Rattle.std.specs.List.{list_all};
ghost use Rattle.std.specs.Result.{result_err};
ghost use Rattle.market.specs.Questions.{first_no};
ghost use Rattle.orders.specs.Rows.{with_here};
ghost use Rattle.orders.specs.Tables.{handed};
ghost use Rattle.engine.specs.Stages.{deadline_of};
ghost use Rattle.engine.specs.States.{table_rows, SameTables, IsSized, tickets_in};
ghost use Rattle.engine.specs.Questions.{match_questions};
ghost use Rattle.engine.specs.Effects.{granted, with_sides, to_execute, matched};

use crate::answer::Answer;
use crate::stage::Stage;
use crate::state::Engine;
use crate::tables::Tables;
use market::{Refusal, Side};
use orders::{Destination, hand_out};
use pricing::executable;
use ranking::first_rows;
use routing::Ticket;

// Whether every ticket is reported.
fn all_reported(tickets: &[Ticket]) -> bool
    ensures { result ≡ list_all (λ t. t.reported) tickets.now }
{
    tickets.iter().all(|ticket| ticket.reported)
}

impl Tables<'_> {
    // The executable shares at a price of the side that has fewer: of rows alone, so it is no count of a book, which has quotes.
    fn matchable(&self, price: u32) -> u64
        requires sized { IsSized (table_rows self.now) }
        ensures { result ≡ to_execute (table_rows self.now) price }
    {
        executable(Side::Buy, &*self.buys, price).min(executable(Side::Sell, &*self.sells, price))
    }

    // Executes shares of both sides in rank order.
    fn execute(&mut self, shares: u64)
        ensures rows { let h = table_rows self.old in
            table_rows self.new
            ≡ with_sides (handed with_here shares h.buys) (handed with_here shares h.sells) h }
        ensures names { SameTables self.old self.new }
    {
        hand_out(self.buys, shares, Destination::Here);
        hand_out(self.sells, shares, Destination::Here);
    }
}

impl Engine {
    // Whether every ticket of the cycle is reported.
    fn tickets_reported(&self, tables: &Tables<'_>) -> bool
        ensures { result ≡ list_all (λ t. t.reported) (tickets_in self.now (table_rows tables.now)) }
    {
        all_reported(first_rows(&*tables.tickets, self.used.tickets))
    }

    // Whether a match may come. `deadline` is the one that the stage holds.
    pub(crate) fn may_match(
        &self,
        deadline: u32,
        tables: &Tables<'_>,
        time: u32,
    ) -> Result<(), Refusal>
        requires { deadline_of self.now.stage ≡ deadline }
        ensures { result_err result
            ≡ first_no (match_questions self.now (table_rows tables.now) time) }
    {
        self.may_come(time)?;
        if time < deadline && !self.tickets_reported(tables) {
            return Err(Refusal::TicketsOut);
        }
        Ok(())
    }

    // Executes what both sides can trade at the price that was fixed.
    pub(crate) fn match_sides(&mut self, price: u32, time: u32, tables: &mut Tables<'_>) -> Answer
        requires sized { IsSized (table_rows tables.old) }
        ensures step { let h = table_rows tables.old in
            granted self.new (table_rows tables.new) result
            ≡ matched self.old h time price (to_execute h price) }
        ensures names { SameTables tables.old tables.new }
    {
        let shares = tables.matchable(price);
        tables.execute(shares);
        self.stage = Stage::Matched;
        self.last_time = Some(time);
        self.fixed = Some(price);
        Answer::Executed { shares }
    }
}
