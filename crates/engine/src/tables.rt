//! The memory that a venue lends: five tables of rows, and what the engine asks and does of them as a whole. A further table is added
//! here, and in specs/States.antt.
ghost use Rattle.std.specs.Prelude.{◌≡◌, ◌-◌, take, slice_index_or};
ghost use Rattle.routing.specs.Tickets.{empty_ticket};
ghost use Rattle.engine.specs.States.{table_rows, SameTables, sizes_fit};
ghost use Rattle.engine.specs.Questions.{stands_at};
ghost use Rattle.engine.specs.Effects.{emptied};

use crate::limits::{ORDER_ROWS, QUOTE_ROWS, TICKET_ROWS};
use crate::state::Used;
use market::{Quote, Side};
use orders::{OrderRow, find};
use ranking::first_rows;
use routing::Ticket;

// Buys, sells, bids and offers are fields here as in a desk and other structs, of other types in each; where a side picks one of
// two, a match does. A pair with a choice by side would be written through all of them and name them no better.

/// The tables that a venue lends to every call. They may have any length: the first question of every call asks whether they have
/// the sizes that the engine works on (refusal 1).
#[derive(Drop)]
pub struct Tables<'a> {
    /// The buys of a cycle, `ORDER_ROWS` rows.
    pub buys: &'a mut [OrderRow],
    /// The sells of a cycle, `ORDER_ROWS` rows.
    pub sells: &'a mut [OrderRow],
    /// The bids that its close found, `QUOTE_ROWS` rows.
    pub bids: &'a mut [Quote],
    /// The offers that its close found, `QUOTE_ROWS` rows.
    pub offers: &'a mut [Quote],
    /// Its tickets, `TICKET_ROWS` rows.
    pub tickets: &'a mut [Ticket],
}

impl Tables<'_> {
    // Whether each table has its size.
    pub(crate) fn sizes_fit(&self) -> bool
        ensures { result ≡ sizes_fit (table_rows self.now) }
    {
        self.buys.len() == ORDER_ROWS
            && self.sells.len() == ORDER_ROWS
            && self.bids.len() == QUOTE_ROWS
            && self.offers.len() == QUOTE_ROWS
            && self.tickets.len() == TICKET_ROWS
    }

    // Empties every table.
    pub(crate) fn clear(&mut self)
        ensures rows { table_rows self.new ≡ emptied (table_rows self.old) }
        ensures names { SameTables self.old self.new }
    {
        self.buys.fill(OrderRow::empty());
        self.sells.fill(OrderRow::empty());
        self.bids.fill(Quote::none());
        self.offers.fill(Quote::none());
        self.tickets.fill(Ticket::empty());
    }

    // Where an order stands among the rows in use.
    pub(crate) fn place(&self, used: Used, number: u32) -> Option<(Side, usize)>
        ensures { result ≡ stands_at number (take used.buys self.now.buys.now)
            (take used.sells self.now.sells.now) }
    {
        let buys = first_rows(&*self.buys, used.buys);
        let sells = first_rows(&*self.sells, used.sells);
        place_in(buys, sells, number)
    }

    // The ticket with a number among the first `used`, an empty one past them. By the definition 0 stands for the first one, so
    // it is not `ticket_with`.
    pub(crate) fn ticket(&self, used: usize, number: u32) -> Ticket
        ensures { result ≡ slice_index_or (take used self.now.tickets.now) (number - 1) empty_ticket }
    {
        first_rows(&*self.tickets, used)
            .get(number.saturating_sub(1) as usize)
            .copied()
            .unwrap_or_default()
    }
}

// Where an order stands: on the buys, else on the sells. A pair, which each caller matches on at once.
pub(crate) fn place_in(buys: &[OrderRow], sells: &[OrderRow], number: u32) -> Option<(Side, usize)>
    ensures { result ≡ stands_at number buys.now sells.now }
{
    if let Some(place) = find(buys, number) {
        return Some((Side::Buy, place));
    }
    find(sells, number).map(|place| (Side::Sell, place))
}
