//! Finish and abort: how a cycle ends; and when a call may come.
ghost use Rattle.std.specs.Prelude.{◌≡◌, [], ◌∷◌};
ghost use Rattle.std.specs.Result.{result_err};
ghost use Rattle.market.specs.Questions.{first_no};
ghost use Rattle.market.specs.declared.refusal.Refusal.TheVariants.{TimeRange};
ghost use Rattle.engine.specs.declared.answer.Answer.TheVariants.{Done, Cancelled};
ghost use Rattle.engine.specs.States.{table_rows, SameTables, IsSized};
ghost use Rattle.engine.specs.Questions.{time_fits};
ghost use Rattle.engine.specs.Effects.{granted, ended, rests_cancelled, all_rests};

use crate::answer::Answer;
use crate::limits::DAY_END;
use crate::stage::Stage;
use crate::state::Engine;
use crate::tables::Tables;
use market::Refusal;
use orders::cancel_all;

impl Tables<'_> {
    // Cancels every rest, and answers how many shares that is.
    pub(crate) fn cancel_rests(&mut self) -> u64
        requires sized { IsSized (table_rows self.old) }
        ensures rows { table_rows self.new ≡ rests_cancelled (table_rows self.old) }
        ensures total { result ≡ all_rests (table_rows self.old) }
        ensures names { SameTables self.old self.new }
    {
        let buys = cancel_all(self.buys);
        let sells = cancel_all(self.sells);
        buys + sells
    }
}

impl Engine {
    // A time of the day, not before the last accepted one.
    fn time_fits(&self, time: u32) -> bool
        ensures { result ≡ time_fits self.now time }
    {
        time <= DAY_END && self.last_time.is_none_or(|last| last <= time)
    }

    // Whether a call may come at a time.
    pub(crate) fn may_come(&self, time: u32) -> Result<(), Refusal>
        ensures { result_err result
            ≡ first_no (record { yes = time_fits self.now time; refusal = TimeRange } ∷ []) }
    {
        if !self.time_fits(time) {
            return Err(Refusal::TimeRange);
        }
        Ok(())
    }

    // The cycle is over.
    pub(crate) fn end_cycle(&mut self, time: u32)
        ensures { self.new ≡ ended time self.old }
    {
        self.stage = Stage::Open;
        self.last_time = Some(time);
        self.last_end = Some(time);
    }

    // Ends the cycle.
    pub(crate) fn finish(&mut self, time: u32) -> Answer
        ensures engine { self.new ≡ ended time self.old }
        ensures answer { result ≡ Done }
    {
        self.end_cycle(time);
        Answer::Done
    }

    // Cancels every rest, and ends the cycle.
    pub(crate) fn abort(&mut self, time: u32, tables: &mut Tables<'_>) -> Answer
        requires sized { IsSized (table_rows tables.old) }
        ensures step { let h = table_rows tables.old in
            granted self.new (table_rows tables.new) result
            ≡ granted (ended time self.old) (rests_cancelled h) (Cancelled (all_rests h)) }
        ensures names { SameTables tables.old tables.new }
    {
        let shares = tables.cancel_rests();
        self.end_cycle(time);
        Answer::Cancelled { shares }
    }
}
