//! Rows of 44 bytes, the ten numbers of an order's row and one more, as C lends them.
ghost use Rattle.benches.specs.Rows.{row_ahead};
ghost use Rattle.std.proofs.Common.{rules};

use market::HigherFirst;
use ranking::Ranking;
use std::cmp::Reverse;

/// A row of 44 bytes: the ten numbers of an order's row and a spare one.
#[repr(C)]
#[derive(Clone, Copy, Debug, PartialEq, Eq)]
pub struct Row {
    /// The number of the order.
    pub number: u32,
    /// The number of its class.
    pub class: u32,
    /// Its price, in points.
    pub price: u32,
    /// Its shares as entered.
    pub shares: u32,
    /// The six counts of its shares.
    pub counts: [u32; 6],
    /// A number that nothing reads.
    pub spare: u32,
}

// The higher price first, then the lower class, then the lower number.
impl Ranking<Row> for HigherFirst {
    ghost ahead = { row_ahead };

    ghost apart = { Prim.search rules };

    ghost through = { Prim.search rules };

    ghost level = { Prim.search rules };

    fn is_ahead(a: &Row, b: &Row) -> bool {
        (Reverse(a.price), a.class, a.number) < (Reverse(b.price), b.class, b.number)
    }
}
