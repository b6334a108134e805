//! A ticket that is not yet reported.
ghost use Rattle.std.specs.Prelude.{◌≡◌, ◌≤◌, not, length};
ghost use Rattle.std.specs.List.{position};
ghost use Rattle.engine.specs.Limits.{ticket_rows};
ghost use Rattle.engine.specs.States.{table_rows};
ghost use Rattle.engine.specs.Outstanding.{first_open, outstanding_of, Outstanding, outstanding_numbers, NumberedOutstanding};

use crate::state::Engine;
use crate::tables::Tables;
use market::Refusal;
use ranking::first_rows;
use routing::Ticket;

// The place of the first ticket that is not reported, if any.
fn first_place(tickets: &[Ticket]) -> Option<usize>
    ensures { result ≡ position (λ t. not t.reported) tickets.now }
{
    tickets.iter().position(|ticket| !ticket.reported)
}

// Its number, counted from 1.
#[tactic(auto, using(crate::proofs::Opens::first_open_at))]
fn first_open(tickets: &[Ticket]) -> Option<u32>
    requires { length tickets.now ≤ ticket_rows }
    ensures { result ≡ first_open tickets.now }
{
    let place = first_place(tickets)?;
    Some(place as u32 + 1)
}

/// The numbers of what it answers, for a venue that keeps answers so: that of the refusal, or 0 and the ticket's, 0 for none.
#[derive(Clone, Copy, Debug, Default, PartialEq, Eq)]
pub struct OutstandingNumbers {
    /// The number of the refusal, 1; 0 where the tables have their sizes.
    pub refusal: u32,
    /// The number of the ticket, counted from 1; 0 for none.
    pub ticket: u32,
}

impl From<Result<Option<u32>, Refusal>> for OutstandingNumbers {
    ghost from_gives = { λ answer numbers. numbers ≡ outstanding_numbers answer };

    fn from(answer: Result<Option<u32>, Refusal>) -> OutstandingNumbers {
        match answer {
            Ok(ticket) => OutstandingNumbers {
                refusal: 0,
                ticket: ticket.unwrap_or(0),
            },
            Err(refusal) => OutstandingNumbers {
                refusal: u32::from(refusal),
                ticket: 0,
            },
        }
    }
}

impl Engine {
    fn first_outstanding(&self, tables: &Tables<'_>) -> Result<Option<u32>, Refusal>
        ensures { result ≡ outstanding_of self.now (table_rows tables.now) }
    {
        if !tables.sizes_fit() {
            return Err(Refusal::TableSizes);
        }
        Ok(first_open(first_rows(&*tables.tickets, self.used.tickets)))
    }

    /// The number of the first ticket that is not yet reported, or none where all are; refused where the tables have
    /// other sizes than the engine works on.
    pub fn outstanding(&self, tables: &Tables<'_>) -> Result<Option<u32>, Refusal>
        ensures is { result ≡ outstanding_of self.now (table_rows tables.now) }
        ensures law { Outstanding self.now (table_rows tables.now) result }
        ensures numbers { NumberedOutstanding self.now (table_rows tables.now)
            (outstanding_numbers result) }
    {
        self.first_outstanding(tables)
    }
}
