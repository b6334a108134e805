//! What a side owes to outside quotes, and its tickets, written as its shares go out.
ghost use Rattle.std.specs.Prelude.{◌≡◌, ◌+◌, ◌≤◌, length, take};
ghost use Rattle.orders.specs.Rows.{with_out};
ghost use Rattle.orders.specs.Tables.{handed};
ghost use Rattle.routing.specs.Owed.{owed};
ghost use Rattle.routing.specs.Tickets.{tickets};
ghost use Rattle.engine.specs.States.{table_rows, SameTables, IsSized};
ghost use Rattle.engine.specs.Books.{listed_market};
ghost use Rattle.engine.specs.Effects.{book_in, with_quotes, written, drawn, shares_out, with_tickets, tickets_at, with_routed};

use crate::listed::Listed;
use crate::state::{Engine, Used};
use crate::tables::Tables;
use market::{Quote, Side};
use orders::{Destination, OrderRow, hand_out};
use pricing::executable;
use ranking::first_rows;
use routing::{Ticket, owed_shares, write_tickets};

// Tickets the first `owed` shares of the first `used` rows to the first `quoted` quotes, sends them out, and answers how
// many tickets there are. The quotes stay: a proof forgets them where they are lent as `&` beside the other tables.
fn route_rows(
    rows: &mut [OrderRow],
    used: usize,
    quotes: &mut [Quote],
    quoted: usize,
    owed: u64,
    out: &mut [Ticket],
) -> usize
    requires { length rows.old + length quotes.old ≤ length out.old + 1 }
    ensures rows { rows.new ≡ handed with_out owed rows.old }
    ensures quotes { quotes.new ≡ quotes.old }
    ensures count { result ≡ length (tickets owed (take used rows.old) (take quoted quotes.old)) }
    ensures out { out.new ≡ written (tickets owed (take used rows.old) (take quoted quotes.old))
        out.old }
{
    let count = write_tickets(
        first_rows(&*rows, used),
        first_rows(&*quotes, quoted),
        owed,
        out,
    );
    hand_out(rows, owed, Destination::Out);
    count
}

impl Tables<'_> {
    // Tickets what a side owes to the quotes of the other, and sends it out.
    fn route_side(&mut self, side: Side, owed: u64, quoted: usize, used: Used) -> usize
        requires sized { IsSized (table_rows self.old) }
        ensures rows { let h = table_rows self.old in
            table_rows self.new
            ≡ with_tickets (drawn side owed quoted used h) (shares_out side owed h) }
        ensures count { result ≡ length (drawn side owed quoted used (table_rows self.old)) }
        ensures names { SameTables self.old self.new }
    {
        match side {
            Side::Buy => route_rows(
                self.buys,
                used.buys,
                self.offers,
                quoted,
                owed,
                self.tickets,
            ),
            Side::Sell => route_rows(
                self.sells,
                used.sells,
                self.bids,
                quoted,
                owed,
                self.tickets,
            ),
        }
    }
}

impl Engine {
    // What a side owes to outside quotes at a price.
    fn owed_at(&self, side: Side, price: u32, quotes: &Listed<'_>, tables: &Tables<'_>) -> u64
        requires sized { IsSized (table_rows tables.now) }
        ensures { let h = table_rows tables.now in
            let q = listed_market quotes.now in
            result ≡ owed side (book_in self.now q h) price }
    {
        let demand = executable(Side::Buy, first_rows(&*tables.buys, self.used.buys), price);
        let supply = executable(
            Side::Sell,
            first_rows(&*tables.sells, self.used.sells),
            price,
        );
        match side {
            Side::Buy => owed_shares(side, price, quotes.offers, demand, supply),
            Side::Sell => owed_shares(side, price, quotes.bids, supply, demand),
        }
    }

    // Ranks the quotes and routes the side that owes, and answers how many tickets there are.
    pub(crate) fn route(&self, price: u32, quotes: &Listed<'_>, tables: &mut Tables<'_>) -> usize
        requires sized { IsSized (table_rows tables.old) }
        ensures rows { let h = table_rows tables.old in
            let q = listed_market quotes.now in
            table_rows tables.new ≡ with_routed self.now q (with_quotes q h) price }
        ensures count { let h = table_rows tables.old in
            let q = listed_market quotes.now in
            result ≡ length (tickets_at self.now q h price) }
        ensures names { SameTables tables.old tables.new }
    {
        tables.rank_both(quotes);
        let owed = self.owed_at(Side::Buy, price, quotes, tables);
        if owed > 0 {
            return tables.route_side(Side::Buy, owed, quotes.offers.len(), self.used);
        }
        let owed = self.owed_at(Side::Sell, price, quotes, tables);
        tables.route_side(Side::Sell, owed, quotes.bids.len(), self.used)
    }
}
