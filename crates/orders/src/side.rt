//! Work on the rows of one side. A row whose counts do not add up is left as it is, and has nothing that can be moved.
//! docs/RULES.md, "Orders and rows".
ghost use Rattle.std.specs.Prelude.{◌≡◌, ◌-◌, ◌*◌, ◌^◌, ◌≤◌, ◌<◌, ◌↔◌, true, IfSome, IsSome, IfNone, is_some, min, map, length, sum_by, slice_set};
ghost use Rattle.std.specs.Fn.{FnOnceReturnsAtMut};
ghost use Rattle.market.specs.Limits.{most_orders};
ghost use Rattle.orders.specs.Rows.{is_whole, with_cancelled, with_settled, sent};
ghost use Rattle.orders.specs.Tables.{nth_row, before, available, if_whole, changed_at, place_of, handed};

use crate::record::{Destination, OrderRecord};
use crate::row::OrderRow;

// Changes the record of a row, where its counts add up, and answers what the change answers.
fn change_row<T, F: FnOnce(&mut OrderRecord) -> T>(row: &mut OrderRow, change: F) -> Option<T>
    requires { F.IsAlwaysCallable change }
    ensures changed { IfSome result (λ answer. FnOnceReturnsAtMut F.FnOnce change row.old answer row.new) }
    ensures whole { IsSome result ↔ (is_whole row.old ≡ true) }
    ensures kept { IfNone result (row.new ≡ row.old) }
{
    let mut record = OrderRecord::try_from(*row).ok()?;
    let answer = change(&mut record);
    *row = record.into();
    Some(answer)
}

// The same of the row at a place; past the end nothing happens.
fn change_at<T, F: FnOnce(&mut OrderRecord) -> T>(
    rows: &mut [OrderRow],
    place: usize,
    change: F,
) -> Option<T>
    requires { F.IsAlwaysCallable change }
    ensures changed { IfSome result (λ answer.
        FnOnceReturnsAtMut F.FnOnce change (nth_row rows.old place) answer (nth_row rows.new place)) }
    ensures whole { IsSome result ↔ ((place < length rows.old) × (is_whole (nth_row rows.old place) ≡ true)) }
    ensures kept { IfNone result (rows.new ≡ rows.old) }
    ensures others { rows.new ≡ slice_set rows.old place (nth_row rows.new place) }
{
    // By the length: no contract says what `get_mut` leaves in a slice.
    if place < rows.len() {
        change_row(&mut rows[place], change)
    } else {
        None
    }
}

// Sends up to `most` shares of a row where they go, and answers how many.
fn send_row(row: &mut OrderRow, most: u64, to: Destination) -> u64
    ensures row { row.new ≡ if_whole (sent to most) row.old }
    ensures count { result ≡ min most (available row.old) }
{
    change_row(row, |record| record.send(most, to)).unwrap_or(0)
}

// How many rows stand before the first with a number. A loop that counts, since cancel and report look for their order in both
// tables: by `position` an enter, which looked in this way then, took an eighth longer.
fn rows_before(rows: &[OrderRow], number: u32) -> usize
    ensures { result ≡ before number rows.now }
{
    for (place, row) in rows.iter().enumerate() {
        if row.number == number {
            return place;
        }
    }
    rows.len()
}

/// Whether a row has a number: whether the order is on this side.
pub fn has_number(rows: &[OrderRow], number: u32) -> bool
    ensures { result ≡ is_some (place_of number rows.now) }
{
    rows.iter()
        .fold(false, |found, row| found | (row.number == number))
}

/// The place of the first row with a number, counted from 0, if any.
pub fn find(rows: &[OrderRow], number: u32) -> Option<usize>
    ensures { result ≡ place_of number rows.now }
{
    let place = rows_before(rows, number);
    (place < rows.len()).then_some(place)
}

/// Cancels the rest of the row at a place, and answers how many shares that is; past the end nothing happens.
pub fn cancel_at(rows: &mut [OrderRow], place: usize) -> u32
    ensures rows { rows.new ≡ changed_at with_cancelled place rows.old }
    ensures count { result ≡ available (nth_row rows.old place) }
{
    change_at(rows, place, OrderRecord::cancel_rest).unwrap_or(0)
}

/// Cancels the rest of each row, and answers how many shares that is: all of them where the rows are no more than a side has
/// orders, else at most as many as the type holds.
pub fn cancel_all(rows: &mut [OrderRow]) -> u64
    ensures rows { rows.new ≡ map (if_whole with_cancelled) rows.old }
    ensures total { result ≡ min (sum_by available rows.old) (2 ^ 64 - 1) }
    ensures bound { length rows.old ≤ most_orders →
        (result ≡ sum_by available rows.old) × (result ≤ (2 ^ 32 - 1) * most_orders) }
{
    let mut total: u64 = 0;
    for row in rows {
        let count = change_row(row, OrderRecord::cancel_rest).unwrap_or(0);
        total = total.saturating_add(u64::from(count));
    }
    total
}

/// Sends `shares` where they go, handed out in the order of the rows: each row sends its rest, or what is left of them. Answers
/// how many were sent. docs/RULES.md, "Shares in rank order".
pub fn hand_out(rows: &mut [OrderRow], shares: u64, to: Destination) -> u64
    ensures rows { rows.new ≡ handed (sent to) shares rows.old }
    ensures total { result ≡ min shares (sum_by available rows.old) }
{
    let mut left = shares;
    for row in rows {
        if left > 0 {
            left -= send_row(row, left, to);
        }
    }
    shares - left
}

/// Settles a ticket of `shares`, of which `filled` were filled, on the row at a place; past the end nothing happens. What was not
/// filled is late, or rests again.
pub fn settle_at(rows: &mut [OrderRow], place: usize, shares: u32, filled: u32, late: bool)
    ensures { rows.new ≡ changed_at (with_settled shares filled late) place rows.old }
{
    change_at(rows, place, |record| {
        record.settle(shares, filled, late)
    });
}
