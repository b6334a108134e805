//! What a granted call answers, and the numbers that stand for it.
ghost use Rattle.std.specs.Prelude.{◌≡◌};
ghost use Rattle.engine.specs.Answers.{shares_in, close_answer_in, numbers_of};

use market::Refusal;
use pricing::Cause;

/// What a granted call answers. Prices are points, counts shares.
#[derive(Clone, Copy, Debug, PartialEq, Eq)]
pub enum Answer {
    /// Begin, enter, report and finish.
    Done,
    /// Cancel and abort: the shares whose rest was cancelled.
    Cancelled {
        /// How many shares.
        shares: u64,
    },
    /// Close that fixed the SNAP Price, with its count and the number of tickets.
    Priced {
        /// The SNAP Price, in points.
        price: u32,
        /// How many shares find both a buyer and a seller there.
        count: u64,
        /// How many tickets were written.
        tickets: usize,
    },
    /// Close that fixed none.
    Unpriced {
        /// Why there is none.
        cause: Cause,
    },
    /// Match: the shares executed on each side.
    Executed {
        /// How many shares.
        shares: u64,
    },
}

/// What a close answers in numbers, for a venue that keeps answers so; price, count and tickets are 0 unless the cause is 0.
#[derive(Clone, Copy, Debug, Default, PartialEq, Eq)]
pub struct CloseAnswer {
    /// The number of the cause why there is no price, 1 to 4; 0 with a price.
    pub cause: u32,
    /// The SNAP Price, in points.
    pub price: u32,
    /// The count: how many shares find both a buyer and a seller at the price.
    pub count: u64,
    /// How many tickets were written.
    pub tickets: usize,
}

impl Answer {
    /// The shares that a cancel, a match or an abort answers; 0 of another call, for a venue that keeps answers in numbers.
    pub fn shares(self) -> u64
        ensures { result ≡ shares_in self }
    {
        match self {
            Answer::Cancelled { shares } => shares,
            Answer::Executed { shares } => shares,
            _ => 0,
        }
    }

    /// What a close answers; all zeros of another call.
    pub fn close_answer(self) -> CloseAnswer
        ensures { result ≡ close_answer_in self }
    {
        match self {
            Answer::Priced {
                price,
                count,
                tickets,
            } => CloseAnswer {
                cause: 0,
                price,
                count,
                tickets,
            },
            Answer::Unpriced { cause } => CloseAnswer {
                cause: u32::from(cause),
                ..CloseAnswer::default()
            },
            _ => CloseAnswer::default(),
        }
    }
}

/// The numbers of a whole answer, for a venue that keeps answers so. What a call of its kind does not answer is 0.
#[derive(Clone, Copy, Debug, Default, PartialEq, Eq)]
pub struct Numbers {
    /// Of the refusal; 0 where the call was granted, and then the others say what it answers.
    pub refusal: u32,
    /// The shares that a cancel, a match or an abort answers.
    pub shares: u64,
    /// What a close answers.
    pub close: CloseAnswer,
}

impl From<Result<Answer, Refusal>> for Numbers {
    ghost from_gives = { λ answer numbers. numbers ≡ numbers_of answer };

    fn from(answer: Result<Answer, Refusal>) -> Numbers {
        match answer {
            Ok(answer) => Numbers {
                refusal: 0,
                shares: answer.shares(),
                close: answer.close_answer(),
            },
            Err(refusal) => Numbers {
                refusal: u32::from(refusal),
                ..Numbers::default()
            },
        }
    }
}
