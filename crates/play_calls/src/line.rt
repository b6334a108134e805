//! A line of the input: a letter and numbers, with one blank between.
use engine::{Call, Facts, Issue};
use orders::Order;
use std::num::ParseIntError;
use std::str::{FromStr, Split};
use thiserror::Error;

/// A text that is no line of the input.
#[derive(Clone, Copy, Debug, PartialEq, Eq, Error)]
#[error("play_calls: a line is none that it reads")]
pub struct NoLine;

impl From<ParseIntError> for NoLine {
    fn from(_e: ParseIntError) -> NoLine {
        NoLine
    }
}

/// What a line asks for: a change of the venues, a new engine, a call, or the question for a ticket. A venue and a side may be any numbers: the venue table refuses those that are none.
#[derive(Clone, Debug, Drop, PartialEq, Eq)]
pub enum Instruction {
    /// A venue quotes shares at a price, in points, on a side.
    Quote {
        venue: u32,
        side: u32,
        price: u32,
        shares: u32,
    },
    /// A venue takes its quote off a side.
    Clear {
        venue: u32,
        side: u32,
    },
    /// Trading is halted, or goes on.
    Halted {
        halted: bool,
    },
    /// A new engine for an issue.
    Made {
        issue: Issue,
    },
    /// A call of the engine.
    Call {
        call: Call,
    },
    /// Which ticket is the first that is not reported.
    Outstanding,
}

// The words of a line that are still to be read.
#[derive(Drop)]
struct Words<'a> {
    words: Split<'a, char>,
}

impl<'a> Words<'a> {
    fn new(text: &'a str) -> Words<'a> {
        Words {
            words: text.split(' '),
        }
    }

    fn word(&mut self) -> Result<&'a str, NoLine> {
        self.words.next().ok_or(NoLine)
    }

    fn number(&mut self) -> Result<u32, NoLine> {
        Ok(self.word()?.parse::<u32>()?)
    }

    // A number, or none where a dash stands for it.
    fn number_or_dash(&mut self) -> Result<Option<u32>, NoLine> {
        match self.word()? {
            "-" => Ok(None),
            word => Ok(Some(word.parse::<u32>()?)),
        }
    }

    // A mark, 0 or 1.
    fn mark(&mut self) -> Result<bool, NoLine> {
        match self.number()? {
            0 => Ok(false),
            1 => Ok(true),
            _ => Err(NoLine),
        }
    }

    fn issue(&mut self) -> Result<Issue, NoLine> {
        Ok(if self.mark()? {
            Issue::Special
        } else {
            Issue::Ordinary
        })
    }

    fn order(&mut self) -> Result<Order, NoLine> {
        Ok(Order {
            number: self.number()?,
            side: self.number()?,
            class: self.number()?,
            price: self.number()?,
            shares: self.number()?,
        })
    }

    fn facts(&mut self) -> Result<Facts, NoLine> {
        Ok(Facts {
            short_sale: self.mark()?,
            first_quote: self.number_or_dash()?,
            routing: self.mark()?,
            acceptance: self.number()?,
        })
    }

    // The call that a letter stands for.
    fn call(&mut self, letter: &str) -> Result<Call, NoLine> {
        Ok(match letter {
            "b" => Call::Begin {
                time: self.number()?,
                order: self.order()?,
                facts: self.facts()?,
            },
            "e" => Call::Enter {
                order: self.order()?,
            },
            "x" => Call::Cancel {
                number: self.number()?,
            },
            "l" => Call::Close {
                time: self.number()?,
                last_sale: self.number()?,
            },
            "r" => Call::Report {
                ticket: self.number()?,
                filled: self.number()?,
            },
            "m" => Call::Match {
                time: self.number()?,
            },
            "f" => Call::Finish {
                time: self.number()?,
            },
            "a" => Call::Abort {
                time: self.number()?,
            },
            _ => return Err(NoLine),
        })
    }

    // The instruction that a letter and the numbers after it are.
    fn instruction(&mut self) -> Result<Instruction, NoLine> {
        Ok(match self.word()? {
            "q" => Instruction::Quote {
                venue: self.number()?,
                side: self.number()?,
                price: self.number()?,
                shares: self.number()?,
            },
            "c" => Instruction::Clear {
                venue: self.number()?,
                side: self.number()?,
            },
            "h" => Instruction::Halted {
                halted: self.mark()?,
            },
            "n" => Instruction::Made {
                issue: self.issue()?,
            },
            "o" => Instruction::Outstanding,
            letter => Instruction::Call {
                call: self.call(letter)?,
            },
        })
    }
}

impl FromStr for Instruction {
    type Err = NoLine;

    fn from_str(text: &str) -> Result<Instruction, NoLine> {
        let mut words = Words::new(text);
        let instruction = words.instruction()?;
        if words.word().is_ok() {
            return Err(NoLine);
        }
        Ok(instruction)
    }
}
