//! What the benchmarks call: insertion into a ranked table, and the writing of tickets.
ghost use Rattle.std.specs.Prelude.{◌≡◌, ◌+◌, ◌≤◌, min, ◌++◌, length, take, drop, if◌then◌else◌, nat_lt};
ghost use Rattle.ranking.specs.Ranked.{placed};
ghost use Rattle.benches.specs.Rows.{row_ahead};
ghost use Rattle.routing.specs.Tickets.{Ticketed, TicketedIn};

use crate::row::Row;
use market::{HigherFirst, Quote};
use orders::OrderRow;
use ranking::try_seat;
use routing::{Ticket, write_tickets};

/// Puts one more entry among the first `used` rows, if a row is free, and says how many entries there are then.
#[unsafe(no_mangle)]
pub extern "C" fn insert_row(rows: &mut [Row], used: usize, row: &Row) -> usize
    ensures rows { rows.new ≡ (if nat_lt used (length rows.old) then placed row_ahead row.now (take used rows.old) ++ drop (used + 1) rows.old else rows.old) }
    ensures count { result ≡ min (used + 1) (length rows.old) }
{
    if try_seat::<Row, HigherFirst>(rows, used, *row).is_ok() {
        used + 1
    } else {
        rows.len()
    }
}

/// Writes the tickets of some orders and quotes.
#[unsafe(no_mangle)]
pub extern "C" fn bench_tickets(
    rows: &[OrderRow],
    quotes: &[Quote],
    routed: u64,
    out: &mut [Ticket],
) -> usize
    ensures part { TicketedIn routed rows.now quotes.now out.old result out.new }
    ensures all { length rows.now + length quotes.now ≤ length out.old + 1 → Ticketed routed rows.now quotes.now out.old result out.new }
{
    write_tickets(rows, quotes, routed, out)
}
