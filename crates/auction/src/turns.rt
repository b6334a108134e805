//! Many calls, one after another.
ghost use Rattle.std.specs.Prelude.{◌≡◌, map};
ghost use Rattle.engine.specs.States.{table_rows, SameTables};
ghost use Rattle.engine.specs.Steps.{SameSizes};
ghost use Rattle.auction.specs.Tallies.{Tally};
ghost use Rattle.auction.specs.Posts.{Posts};
ghost use Rattle.auction.specs.Histories.{History};
ghost use Rattle.auction.specs.Played.{CalledRun, IsPlayed};

use crate::runs::call;
use engine::{Answer, Call, Engine, Tables};
use market::{QuoteSource, Refusal};

/// A call with the source that it is made on, and its answer once it is made.
#[derive(Clone, Debug, Drop, PartialEq, Eq)]
pub struct PlayedCall<S> {
    /// The call: times in milliseconds since midnight, prices in points, counts in shares.
    pub call: Call,
    /// The source whose quotes the call sees (docs/RULES.md, "Sides and quotes").
    pub source: S,
    /// The call's answer, or its refusal with a number from 1 to 23; none before it is made.
    pub answer: Option<Result<Answer, Refusal>>,
}

/// Makes the call of each turn, one after another, and writes its answer beside it. What a call by
/// itself promises holds of each of them, of any engine and tables, and in a run each is lawful
/// (docs/RULES.md, "The tally, and the laws over every run"): a caller that has many need not say
/// it again. A refused call does not stop those after it.
pub fn call_all<S: QuoteSource>(
    engine: &mut Engine,
    turns: &mut [PlayedCall<S>],
    tables: &mut Tables<'_>,
)
    ensures run { (y : Tally) (p : Posts) → History engine.old (table_rows tables.old) y p
        → IsPlayed S.meaning engine.old (table_rows tables.old) y p turns.new engine.new
        (table_rows tables.new) }
    ensures called { CalledRun S.meaning engine.old (table_rows tables.old) turns.new engine.new
        (table_rows tables.new) }
    ensures calls { map (λ turn. turn.call) turns.new ≡ map (λ turn. turn.call) turns.old }
    ensures sources { map (λ turn. turn.source) turns.new ≡ map (λ turn. turn.source) turns.old }
    ensures sizes { SameSizes (table_rows tables.new) (table_rows tables.old) }
    ensures names { SameTables tables.old tables.new }
{
    for turn in turns.iter_mut() {
        let answer = call(engine, &turn.call, &turn.source, tables);
        turn.answer = Some(answer);
    }
}
