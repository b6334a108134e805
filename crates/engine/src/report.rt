//! Report: what it asks, and how a ticket is settled on its order.
ghost use Rattle.std.specs.Prelude.{◌≡◌, ◌-◌, ◌&&◌, length, take, is_some, IfSome, nat_le, slice_index_or};
ghost use Rattle.std.specs.Result.{result_err};
ghost use Rattle.market.specs.Questions.{first_no};
ghost use Rattle.orders.specs.Rows.{with_settled};
ghost use Rattle.routing.specs.Tickets.{empty_ticket};
ghost use Rattle.engine.specs.States.{table_rows, SameTables};
ghost use Rattle.engine.specs.Questions.{ticket_at, report_questions};
ghost use Rattle.engine.specs.Effects.{granted, with_order, with_reported, reported, report};

use crate::answer::Answer;
use crate::state::Engine;
use crate::tables::Tables;
use market::{Refusal, Side};
use orders::settle_at;
use ranking::first_rows;
use routing::Ticket;

// The ticket with a number, counted from 1, among the first `used`, if there is one.
fn ticket_with(tickets: &[Ticket], used: usize, number: u32) -> Option<Ticket>
    ensures found { is_some result
        ≡ (nat_le 1 number && nat_le number (length (take used tickets.now))) }
    ensures ticket { IfSome result
        (λ ticket. ticket ≡ slice_index_or (take used tickets.now) (number - 1) empty_ticket) }
{
    let place = number.checked_sub(1)?;
    first_rows(tickets, used).get(place as usize).copied()
}

impl Tables<'_> {
    // Puts a ticket back under its number, reported.
    fn put_reported(&mut self, number: u32, ticket: Ticket)
        ensures rows { table_rows self.new ≡ with_reported number ticket (table_rows self.old) }
        ensures names { SameTables self.old self.new }
    {
        // A write through `get_mut` says nothing of the other tickets.
        let place = number.saturating_sub(1) as usize;
        if place < self.tickets.len() {
            self.tickets[place] = Ticket {
                reported: true,
                ..ticket
            };
        }
    }
}

impl Engine {
    // Whether a report may come.
    pub(crate) fn may_report(
        &self,
        tables: &Tables<'_>,
        number: u32,
        filled: u32,
    ) -> Result<(), Refusal>
        ensures { let h = table_rows tables.now in
            result_err result ≡ first_no (report_questions self.now h number filled) }
    {
        let found = ticket_with(&*tables.tickets, self.used.tickets, number);
        let ticket = found.ok_or(Refusal::UnknownTicket)?;
        if ticket.reported {
            return Err(Refusal::TicketReported);
        }
        if filled > ticket.shares {
            return Err(Refusal::TicketFills);
        }
        Ok(())
    }

    // Settles a ticket on its order.
    fn settle_order(&self, ticket: Ticket, filled: u32, late: bool, tables: &mut Tables<'_>)
        ensures rows { let h = table_rows tables.old in
            table_rows tables.new ≡ with_order (with_settled ticket.shares filled late) ticket.order
            self.now h }
        ensures names { SameTables tables.old tables.new }
    {
        match tables.place(self.used, ticket.order) {
            Some((Side::Buy, place)) => settle_at(tables.buys, place, ticket.shares, filled, late),
            Some((Side::Sell, place)) => settle_at(
                tables.sells,
                place,
                ticket.shares,
                filled,
                late,
            ),
            None => {}
        }
    }

    // Closes a ticket, and settles it on its order.
    fn close_ticket(&self, number: u32, filled: u32, late: bool, tables: &mut Tables<'_>)
        ensures rows { let h = table_rows tables.old in
            table_rows tables.new ≡ with_reported number (ticket_at self.now h number)
            (with_order (with_settled (ticket_at self.now h number).shares filled late)
            (ticket_at self.now h number).order self.now h) }
        ensures names { SameTables tables.old tables.new }
    {
        let ticket = tables.ticket(self.used.tickets, number);
        self.settle_order(ticket, filled, late, tables);
        tables.put_reported(number, ticket);
    }

    // Shares that a report leaves unfilled rest again, or are late once the cycle is matched.
    pub(crate) fn report(
        &self,
        ticket: u32,
        filled: u32,
        late: bool,
        tables: &mut Tables<'_>,
    ) -> Answer
        ensures step { let h = table_rows tables.old in
            granted self.now (table_rows tables.new) result ≡ report self.now h ticket filled late }
        ensures names { SameTables tables.old tables.new }
    {
        self.close_ticket(ticket, filled, late, tables);
        Answer::Done
    }
}
