//! Orders: as a member enters them (order.rt), as rows with six counts (row.rt), and what becomes of their shares (record.rt, and
//! side.rt for the rows of a side). docs/RULES.md, "Orders and rows".

#![tactic(auto)]

mod laws;
mod order;
mod rankings;
mod record;
mod row;
mod side;

pub use laws::order_laws;
pub use order::{Class, Order, UnknownClass};
pub use record::{Destination, NotWhole, OrderRecord};
pub use row::OrderRow;
pub use side::{cancel_all, cancel_at, find, hand_out, has_number, settle_at};
