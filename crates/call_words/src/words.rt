//! Times of the day, orders, calls and answers in words, as the record of a desk has them.
ghost use Rattle.std.specs.Prelude.{◌≡◌, Some};
ghost use Rattle.call_words.specs.Words.{time_text, side_word, class_word, order_text, call_text, answer_text, outcome_text};

use engine::{Answer, Call};
use market::{Refusal, Side};
use orders::{Class, Order};
use report::{Dollars, Grouped};
use std::fmt;

/// A time of the day, from milliseconds since midnight: hours, minutes, seconds and milliseconds.
#[derive(Clone, Copy, Debug, PartialEq, Eq)]
pub struct TimeOfDay(pub u32);

#[tactic(auto, using(report::proofs::Filled::filled))]
impl fmt::Display for TimeOfDay {
    ghost output = { λ time. Some (time_text time.0) };

    fn fmt<W: fmt::Write>(&self, f: &mut fmt::Formatter<W>) -> fmt::Result {
        let hours = self.0 / 3_600_000;
        let minutes = self.0 / 60_000 % 60;
        let seconds = self.0 / 1_000 % 60;
        let milliseconds = self.0 % 1_000;
        write!(f, "{hours:02}:{minutes:02}:{seconds:02}.{milliseconds:03}")
    }
}

/// The word for a side, from its number (1 buy, 2 sell). A refused order may have any numbers, so names are of numbers.
pub fn side_name(side: u32) -> &'static str
    ensures { result.now ≡ side_word side }
{
    match Side::try_from(side) {
        Ok(Side::Buy) => "buy",
        Ok(Side::Sell) => "sell",
        Err(_) => "unknown",
    }
}

/// The word for a class, from its number (0 displayed, 1 reserve, 2 hidden), which may be any.
pub fn class_name(class: u32) -> &'static str
    ensures { result.now ≡ class_word class }
{
    match Class::try_from(class) {
        Ok(Class::Displayed) => "displayed",
        Ok(Class::Reserve) => "reserve",
        Ok(Class::Hidden) => "hidden",
        Err(_) => "unknown",
    }
}

/// An order in words: number, side, shares, class, price.
#[derive(Clone, Copy, Debug, PartialEq, Eq)]
pub struct OrderWords(pub Order);

impl fmt::Display for OrderWords {
    ghost output = { λ order. Some (order_text order.0) };

    fn fmt<W: fmt::Write>(&self, f: &mut fmt::Formatter<W>) -> fmt::Result {
        let number = self.0.number;
        let side = side_name(self.0.side);
        let shares = Grouped(u64::from(self.0.shares));
        let class = class_name(self.0.class);
        let dollars = Dollars(self.0.price);
        write!(f, "order {number}, {side} {shares} {class} at {dollars}")
    }
}

/// A call in words: what it asks, with its time of the day and its numbers.
#[derive(Clone, Copy, Debug, PartialEq, Eq)]
pub struct CallWords<'a>(pub &'a Call);

impl fmt::Display for CallWords<'_> {
    ghost output = { λ call. Some (call_text call.0.now) };

    fn fmt<W: fmt::Write>(&self, f: &mut fmt::Formatter<W>) -> fmt::Result {
        match *self.0 {
            Call::Begin { time, order, .. } => {
                let at = TimeOfDay(time);
                let order = OrderWords(order);
                write!(f, "begin at {at} with {order}")
            }
            Call::Enter { order } => {
                let order = OrderWords(order);
                write!(f, "enter {order}")
            }
            Call::Cancel { number } => write!(f, "cancel order {number}"),
            Call::Close { time, last_sale } => {
                let at = TimeOfDay(time);
                let dollars = Dollars(last_sale);
                write!(f, "close at {at}, last sale {dollars}")
            }
            Call::Report { ticket, filled } => {
                let shares = Grouped(u64::from(filled));
                write!(f, "report ticket {ticket}, {shares} filled")
            }
            Call::Match { time } => {
                let at = TimeOfDay(time);
                write!(f, "match at {at}")
            }
            Call::Finish { time } => {
                let at = TimeOfDay(time);
                write!(f, "finish at {at}")
            }
            Call::Abort { time } => {
                let at = TimeOfDay(time);
                write!(f, "abort at {at}")
            }
        }
    }
}

/// The answer to a call that is granted, in words.
#[derive(Clone, Copy, Debug, PartialEq, Eq)]
pub struct AnswerWords(pub Answer);

impl fmt::Display for AnswerWords {
    ghost output = { λ answer. Some (answer_text answer.0) };

    fn fmt<W: fmt::Write>(&self, f: &mut fmt::Formatter<W>) -> fmt::Result {
        match self.0 {
            Answer::Done => write!(f, "done"),
            Answer::Cancelled { shares } => {
                let shares = Grouped(shares);
                write!(f, "{shares} shares cancelled")
            }
            Answer::Priced {
                price,
                count,
                tickets,
            } => {
                let dollars = Dollars(price);
                let count = Grouped(count);
                write!(f, "priced at {dollars}, count {count}, {tickets} tickets")
            }
            Answer::Unpriced { cause } => {
                let number = u32::from(cause);
                let words = cause.words();
                write!(f, "no price, cause {number}, {words}")
            }
            Answer::Executed { shares } => {
                let shares = Grouped(shares);
                write!(f, "{shares} shares executed on each side")
            }
        }
    }
}

/// What came of a call: the words of its answer, or the number and the words of its refusal.
#[derive(Clone, Copy, Debug, PartialEq, Eq)]
pub struct Outcome(pub Result<Answer, Refusal>);

impl fmt::Display for Outcome {
    ghost output = { λ outcome. Some (outcome_text outcome.0) };

    fn fmt<W: fmt::Write>(&self, f: &mut fmt::Formatter<W>) -> fmt::Result {
        match self.0 {
            Ok(answer) => {
                let words = AnswerWords(answer);
                write!(f, "{words}")
            }
            Err(refusal) => {
                let number = u32::from(refusal);
                let words = refusal.words();
                write!(f, "refused with {number}, {words}")
            }
        }
    }
}
