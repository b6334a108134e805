//! What surveillance checks: that as much was bought here as was sold, and that no share of an order is lost.
ghost use Rattle.std.specs.Prelude.{◌≡◌, ◌≤◌, length, sum_by};
ghost use Rattle.std.specs.List.{list_all};
ghost use Rattle.engine.specs.Limits.{order_rows};
ghost use Rattle.orders.specs.Rows.{is_whole};

use orders::{OrderRecord, OrderRow};

// The shares of a side that were executed here.
pub(crate) fn executed_here(rows: &[OrderRow]) -> u64
    requires few { length rows.now ≤ order_rows }
    ensures { result ≡ sum_by (λ w. w.here) rows.now }
{
    rows.iter().map(|row| u64::from(row.here)).sum()
}

// Whether the shares of an order as entered are the sum of its six counts.
pub(crate) fn adds_up(row: OrderRow) -> bool
    ensures { result ≡ is_whole row }
{
    OrderRecord::try_from(row).is_ok()
}

// Whether they are for every order of a side.
pub(crate) fn all_add_up(rows: &[OrderRow]) -> bool
    ensures { result ≡ list_all is_whole rows.now }
{
    rows.iter().all(|row| adds_up(*row))
}
