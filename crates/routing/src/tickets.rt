//! Writes the tickets of a side: orders and quotes walked in rank order, each ticket as large as both still allow. docs/RULES.md,
//! "Tickets".
ghost use Rattle.std.specs.Prelude.{◌≡◌, ◌+◌, ◌≤◌, ◌&&◌, length, if◌then◌else◌, nat_lt, slice_set};
ghost use Rattle.routing.specs.Tickets.{ticket_for, Ticketed, TicketedIn};

use crate::ticket::Ticket;
use market::Quote;
use orders::OrderRow;

// The ticket that sends shares of an order to a quote.
fn ticket_for(order: OrderRow, quote: Quote, shares: u32) -> Ticket
    ensures { result ≡ ticket_for order quote shares }
{
    Ticket {
        order: order.number,
        venue: quote.venue,
        price: quote.price,
        shares,
        ..Ticket::default()
    }
}

// Writes a ticket at the first free place, unless it is for no shares or there is no place; answers where the next
// free place is. The table is lent by the caller, so what is written of it is counted beside it.
fn put_ticket(out: &mut [Ticket], count: usize, ticket: Ticket) -> usize
    ensures count { result ≡ (if nat_lt 0 ticket.shares && nat_lt count (length out.old) then count + 1 else count) }
    ensures out { out.new ≡ (if nat_lt 0 ticket.shares && nat_lt count (length out.old)
        then slice_set out.old count ticket else out.old) }
{
    if ticket.shares == 0 || count >= out.len() {
        return count;
    }
    out[count] = ticket;
    count + 1
}

/// Writes the tickets of the first `routed` shares into `out`, from its first row on, and answers how many it wrote. `rows` and
/// `quotes` are the orders of a side and the quotes that they go to, each in rank order. A table that has no room for all
/// tickets is left with the first ones, as many as fit; one with as many rows as orders and quotes together, less one, has room.
pub fn write_tickets(rows: &[OrderRow], quotes: &[Quote], routed: u64, out: &mut [Ticket]) -> usize
    ensures part { TicketedIn routed rows.now quotes.now out.old result out.new }
    ensures all { length rows.now + length quotes.now ≤ length out.old + 1
        → Ticketed routed rows.now quotes.now out.old result out.new }
{
    let mut count = 0;
    let mut left = routed;
    let (mut waiting, mut standing) = (rows, quotes);
    // What is written already of the first order that waits, and of the first quote that stands.
    let (mut filled, mut taken) = (0, 0);
    while let ([order, later @ ..], [quote, others @ ..]) = (waiting, standing) {
        let (order, quote) = (*order, *quote);
        let rest = order.rest - filled;
        let shares = quote.shares - taken;
        // A ticket in each branch: with one before them the walk takes 1.3 to 1.6 times as long.
        if rest < shares {
            let tied = left.min(u64::from(rest));
            count = put_ticket(out, count, ticket_for(order, quote, tied as u32));
            left -= tied;
            (waiting, filled, taken) = (later, 0, taken + rest);
        } else {
            let tied = left.min(u64::from(shares));
            count = put_ticket(out, count, ticket_for(order, quote, tied as u32));
            left -= tied;
            (standing, filled, taken) = (others, filled + shares, 0);
        }
    }
    count
}
