//! The call that venues make, with what it promises over every run of calls.
ghost use Rattle.engine.specs.States.{table_rows, SameTables};
ghost use Rattle.engine.specs.Asked.{asked};
ghost use Rattle.engine.specs.Effects.{left};
ghost use Rattle.engine.specs.Answers.{numbers_of};
ghost use Rattle.engine.specs.Outstanding.{outstanding_of, Outstanding, outstanding_numbers, NumberedOutstanding};
ghost use Rattle.engine.specs.Steps.{Called, SameSizes, Untouched, Unread};
ghost use Rattle.engine.specs.Clock.{Clock};
ghost use Rattle.engine.specs.Numbered.{Numbered};
ghost use Rattle.auction.specs.Tallies.{Tally};
ghost use Rattle.auction.specs.Posts.{Posts};
ghost use Rattle.auction.specs.Histories.{History};
ghost use Rattle.auction.specs.Runs.{Lawful, NoneYet, OpenNow};
ghost use Rattle.auction.specs.Laws.{OpenBy};
ghost use Rattle.std.specs.Prelude.{◌≡◌, ℕ, true, false, Option, Ok, IfOk};

use engine::{Answer, Call, Engine, Tables};
use market::{QuoteSource, Refusal};

/// Takes a call (docs/RULES.md, "The questions of a call" and "What a granted call does"). Whatever
/// calls came before it since the engine was made, granted or refused, it leaves what the rules
/// define, the laws of its kind of call hold between the tallies before and after it, and what
/// always stands does so again ("The tally, and the laws over every run"). Times are milliseconds
/// since midnight, prices points, and counts shares. `Err` is the refusal of the first question
/// that is answered no, with its number from 1 to 23, and then engine and tables are as they stood.
pub fn call<S: QuoteSource>(
    engine: &mut Engine,
    call: &Call,
    source: &S,
    tables: &mut Tables<'_>,
) -> Result<Answer, Refusal>
    ensures called { Called engine.old (S.meaning source.now) (table_rows tables.old)
        (asked call.now) (left engine.new tables.new result) }
    ensures refused { Untouched engine.old (table_rows tables.old)
        (left engine.new tables.new result) }
    ensures unread { Unread engine.old (S.meaning source.now) (table_rows tables.old)
        (asked call.now) (left engine.new tables.new result) }
    ensures clock { IfOk result (λ answer. Clock engine.old (asked call.now) answer engine.new) }
    ensures numbers { Numbered engine.old (S.meaning source.now) (table_rows tables.old)
        (asked call.now) (numbers_of result) }
    ensures lawful { (y : Tally) (p : Posts) → History engine.old (table_rows tables.old) y p
        → Lawful y p (S.meaning source.now) (asked call.now)
        (left engine.new tables.new result) }
    ensures sizes { SameSizes (table_rows tables.new) (table_rows tables.old) }
    ensures names { SameTables tables.old tables.new }
{
    engine.call(call, source, tables)
}

/// The number, from 1, of the first ticket that is not yet reported, or none where all are; in a
/// run, of the tally's tickets (docs/RULES.md, "What a granted call does"). It asks for no stage, and
/// changes nothing. `Err` is refusal 1: the tables have other sizes.
pub fn outstanding(engine: &Engine, tables: &Tables<'_>) -> Result<Option<u32>, Refusal>
    ensures is { result ≡ outstanding_of engine.now (table_rows tables.now) }
    ensures law { Outstanding engine.now (table_rows tables.now) result }
    ensures numbers { NumberedOutstanding engine.now (table_rows tables.now)
        (outstanding_numbers result) }
    ensures fresh { (y : Tally) (p : Posts) → History engine.now (table_rows tables.now) y p
        → y.begun ≡ false → NoneYet engine.now (table_rows tables.now) result }
    ensures run { (y : Tally) (p : Posts) → History engine.now (table_rows tables.now) y p
        → (o : Option ℕ) → result ≡ Ok o → OpenBy y o }
    ensures begun { (y : Tally) (p : Posts) → History engine.now (table_rows tables.now) y p
        → y.begun ≡ true → OpenNow y result }
{
    engine.outstanding(tables)
}
