//! A row whose counts add up to the shares as entered, and each change of its counts. There is no other. docs/RULES.md, "Orders
//! and rows".
ghost use Rattle.std.specs.Prelude.{◌≡◌, true, min};
ghost use Rattle.orders.specs.Rows.{is_whole, with_cancelled, with_settled, sent};

use crate::row::OrderRow;
use std::error::Error;
use std::fmt;
use std::marker::Model;

/// A row that is whole. It keeps the row that it was made of, so that its type can say what may have become of that row since.
#[derive(Debug, Drop)]
pub struct OrderRecord {
    row: OrderRow,
    made_of: OrderRow,
}

impl Model for OrderRecord {
    ghost use Rattle.std.specs.Prelude.{◌≡◌, ◌+◌};
    ghost use Rattle.orders.specs.declared.row.OrderRow.{OrderRow};
    ghost use Rattle.orders.specs.Rows.{Moved};

    ghost Value = { OrderRow };

    ghost view = { λ a. a.row };

    ghost invariant = { λ a.
        (a.row.shares ≡ a.row.rest + a.row.here + a.row.away + a.row.out + a.row.cancelled + a.row.late)
        × Moved a.made_of a.row };
}

/// What `OrderRecord::try_from` answers to a row whose counts do not add up to its shares. Work on a side leaves such a row as it
/// is.
#[derive(Clone, Copy, Debug, PartialEq, Eq, Hash)]
pub struct NotWhole(
    /// The row.
    pub OrderRow,
);

impl fmt::Display for NotWhole {
    ghost use Rattle.std.specs.Prelude.{Some};
    ghost use Rattle.orders.specs.Records.{not_whole_text};

    ghost output = { λ row. Some (not_whole_text row.0) };

    fn fmt<W: fmt::Write>(&self, f: &mut fmt::Formatter<W>) -> fmt::Result {
        let number = self.0.number;
        write!(f, "the counts of order {number} do not add up")
    }
}

impl Error for NotWhole {}

/// Where shares of an order go: they are filled here, or sent out to another venue. A choice of two, and no closure that adds to
/// a count: the definitions speak of it (`sent`).
#[derive(Clone, Copy, Debug, PartialEq, Eq, Hash)]
pub enum Destination {
    /// Filled here: from rest to here.
    Here,
    /// Sent out to other venues: from rest to out.
    Out,
}

// The record of a whole row.
impl TryFrom<OrderRow> for OrderRecord {
    type Error = NotWhole;

    ghost use Rattle.orders.specs.Records.{RecordOf};

    ghost try_from_gives = { RecordOf };

    fn try_from(row: OrderRow) -> Result<Self, NotWhole> {
        let traded = u64::from(row.here) + u64::from(row.away) + u64::from(row.out);
        let gone = u64::from(row.cancelled) + u64::from(row.late);
        if u64::from(row.shares) == u64::from(row.rest) + traded + gone {
            Ok(OrderRecord { row, made_of: row })
        } else {
            Err(NotWhole(row))
        }
    }
}

// The row of a record, as it is now.
impl From<OrderRecord> for OrderRow {
    ghost use Rattle.std.specs.Prelude.{◌≡◌, true};
    ghost use Rattle.orders.specs.Rows.{is_whole};

    ghost from_gives = { λ whole row. (row ≡ whole) × (is_whole row ≡ true) };

    fn from(whole: OrderRecord) -> OrderRow {
        whole.row
    }
}

// That the row stays whole is the model's invariant, and is said again by each change: what callers hold of a record in their
// clauses is its row, which any row can be.
impl OrderRecord {
    /// Its row, as it is now.
    pub fn row(&self) -> OrderRow
        ensures row { result ≡ self.now }
        ensures whole { is_whole result ≡ true }
    {
        self.row
    }

    /// Cancels the rest, and answers how many shares that is.
    pub fn cancel_rest(&mut self) -> u32
        ensures row { self.new ≡ with_cancelled self.old }
        ensures count { result ≡ self.old.rest }
        ensures whole { is_whole self.new ≡ true }
    {
        let count = self.row.rest;
        self.row.cancelled += count;
        self.row.rest = 0;
        count
    }

    /// Sends up to `most` shares of the rest where they go, and answers how many.
    pub fn send(&mut self, most: u64, to: Destination) -> u64
        ensures row { self.new ≡ sent to most self.old }
        ensures count { result ≡ min most self.old.rest }
        ensures whole { is_whole self.new ≡ true }
    {
        let count = most.min(u64::from(self.row.rest)) as u32;
        self.row.rest -= count;
        match to {
            Destination::Here => self.row.here += count,
            Destination::Out => self.row.out += count,
        }
        u64::from(count)
    }

    /// A ticket of `shares` that were out comes back with `filled` of them: those go to away, and what is not filled is late, or
    /// rests again. The three are one report's; the functions of a report hand them on. No more comes back than is out, and no
    /// more is filled than comes back.
    pub fn settle(&mut self, shares: u32, filled: u32, late: bool)
        ensures row { self.new ≡ with_settled shares filled late self.old }
        ensures whole { is_whole self.new ≡ true }
    {
        let back = shares.min(self.row.out);
        let gained = filled.min(back);
        self.row.out -= back;
        self.row.away += gained;
        if late {
            self.row.late += back - gained;
        } else {
            self.row.rest += back - gained;
        }
    }
}
