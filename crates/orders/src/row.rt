//! The row of one order in a side's table, plain; all zeros where it is empty. docs/RULES.md, "Orders and rows".
ghost use Rattle.std.specs.Prelude.{◌≡◌};

use crate::order::Order;
use pricing::{AsLevel, Level};

/// An order on its side, with its shares as entered and the six counts that say where they are now. A row is whole where the
/// counts add up to the shares; what may become of its counts is in record.rt.
#[repr(C)]
#[derive(Clone, Copy, Debug, Default, PartialEq, Eq, Hash)]
pub struct OrderRow {
    /// The sequence number of the order; 0 where the row is empty.
    pub number: u32,
    /// The number of its class, as in an order: a row goes through C.
    pub class: u32,
    /// Its limit in points, as entered. What it ranks and counts by is the price of its level.
    pub price: u32,
    /// The shares as entered.
    pub shares: u32,
    /// The shares that are still to trade.
    pub rest: u32,
    /// The shares that are traded here.
    pub here: u32,
    /// The shares that are traded at other venues.
    pub away: u32,
    /// The shares that are out at other venues, not yet reported.
    pub out: u32,
    /// The shares that were cancelled.
    pub cancelled: u32,
    /// The shares that came back unfilled after the match.
    pub late: u32,
}

impl OrderRow {
    ghost use Rattle.orders.specs.Rows.{empty_row};

    /// A row with no order in it: all zeros.
    pub fn empty() -> OrderRow
        ensures { result ≡ empty_row }
    {
        OrderRow::default()
    }
}

// The row of an order just accepted: all its shares are rest.
impl From<Order> for OrderRow {
    ghost use Rattle.orders.specs.Rows.{entered_row};

    ghost from_gives = { λ order row. row ≡ entered_row order };

    fn from(order: Order) -> OrderRow {
        OrderRow {
            number: order.number,
            class: order.class,
            price: order.price,
            shares: order.shares,
            rest: order.shares,
            ..OrderRow::default()
        }
    }
}

// What rests of a row, at the price by which it ranks and counts. Nothing else says that price.
impl AsLevel for OrderRow {
    ghost use Rattle.orders.specs.Rows.{level_of};

    ghost level = { level_of };

    fn level(&self) -> Level {
        Level {
            price: self.price,
            shares: self.rest,
        }
    }
}
