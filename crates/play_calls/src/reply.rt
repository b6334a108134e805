//! What a line that is not refused is answered.
ghost use Rattle.std.specs.Prelude.{Some};
ghost use Rattle.play_calls.specs.Replies.{reply_text};

use engine::{Answer, CloseAnswer, Numbers, OutstandingNumbers};
use std::fmt;

/// What a line that is not refused is answered.
#[derive(Clone, Copy, Debug, PartialEq, Eq)]
pub enum Reply {
    /// A change of the venues, or a new engine: no number.
    Done,
    /// A call that is granted: the numbers of its answer.
    Called(Answer),
    /// The question for a ticket: its number, or 0 where all are reported.
    Outstanding(Option<u32>),
}

// The numbers of an answer that a call of its kind has, a blank before each: the shares, or cause, price, count and tickets.
impl fmt::Display for Reply {
    ghost output = { λ reply. Some (reply_text reply) };

    fn fmt<W: fmt::Write>(&self, f: &mut fmt::Formatter<W>) -> fmt::Result {
        match *self {
            Reply::Done | Reply::Called(Answer::Done) => Ok(()),
            Reply::Called(answer @ (Answer::Cancelled { .. } | Answer::Executed { .. })) => {
                let shares = Numbers::from(Ok(answer)).shares;
                write!(f, " {shares}")
            }
            Reply::Called(answer @ (Answer::Priced { .. } | Answer::Unpriced { .. })) => {
                let CloseAnswer {
                    cause,
                    price,
                    count,
                    tickets,
                } = Numbers::from(Ok(answer)).close;
                write!(f, " {cause} {price} {count} {tickets}")
            }
            Reply::Outstanding(ticket) => {
                let ticket = OutstandingNumbers::from(Ok(ticket)).ticket;
                write!(f, " {ticket}")
            }
        }
    }
}
