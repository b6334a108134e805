//! Seats one more entry among the rows that a caller keeps: fixed memory, with the number of used rows beside it.
ghost use Rattle.std.specs.Prelude.{◌≡◌, ◌+◌, ◌<◌, ◌++◌, length, take, drop, is_ok, if◌then◌else◌, nat_lt};
ghost use Rattle.ranking.specs.Ranked.{placed};

use crate::full::Full;
use crate::rank::Ranking;
use crate::table::RankedTable;

/// Puts an entry behind every one of the first `used` rows that it is not ahead of. A row has to be free; where the caller does not
/// know of one, `try_seat` asks.
pub fn seat<E: Copy, R: Ranking<E>>(rows: &mut [E], used: usize, entry: E)
    requires { used < length rows.old }
    ensures { rows.new ≡ placed R.ahead entry (take used rows.old) ++ drop (used + 1) rows.old }
{
    let mut table = RankedTable::<E, R>::over(rows, used);
    table.insert(entry);
}

/// Puts an entry behind every one of the first `used` rows that it is not ahead of. Where no row is free it is refused, and nothing
/// changes.
pub fn try_seat<E: Copy, R: Ranking<E>>(rows: &mut [E], used: usize, entry: E) -> Result<(), Full>
    ensures done { is_ok result ≡ nat_lt used (length rows.old) }
    ensures rows { rows.new ≡ (if nat_lt used (length rows.old)
        then placed R.ahead entry (take used rows.old) ++ drop (used + 1) rows.old
        else rows.old) }
{
    if used >= rows.len() {
        return Err(Full);
    }
    seat::<E, R>(rows, used, entry);
    Ok(())
}
