//! The public call: its questions first, and where none is answered "no", what it does.
ghost use Rattle.std.specs.Prelude.{◌≡◌, None, IfOk};
ghost use Rattle.market.specs.Questions.{first_no};
ghost use Rattle.engine.specs.States.{table_rows, SameTables};
ghost use Rattle.std.specs.Result.{result_err};
ghost use Rattle.engine.specs.Questions.{stage_questions, questions};
ghost use Rattle.engine.specs.Answers.{met_number, numbers_of};
ghost use Rattle.engine.specs.Numbered.{numbered, first_number, Numbered};
ghost use Rattle.engine.specs.Asked.{asked};
ghost use Rattle.engine.specs.Effects.{granted, left};
ghost use Rattle.engine.specs.Steps.{Called, SameSizes, Untouched, Unread};
ghost use Rattle.engine.specs.Clock.{Clock};

use crate::answer::Answer;
use crate::call::Call;
use crate::stage::Stage;
use crate::state::Engine;
use crate::tables::Tables;
use market::{QuoteSource, Refusal};

impl Engine {
    // What a call asks besides the sizes of the tables: whether it comes in this stage, and its own questions.
    fn may_call<S: QuoteSource>(
        &self,
        call: &Call,
        source: &S,
        tables: &Tables<'_>,
    ) -> Result<(), Refusal>
        ensures { let m = S.meaning source.now in
            let h = table_rows tables.now in
            result_err result ≡ first_no (stage_questions self.now m h (asked call.now)) }
    {
        // One arm for each pair of a stage and a call that may come, as in `grant`.
        match (self.stage, call) {
            (Stage::Open, Call::Begin { time, order, facts }) => {
                self.may_begin(source, *time, *order, *facts)
            }
            (Stage::Acceptance { .. }, Call::Enter { order }) => self.may_enter(tables, *order),
            (Stage::Acceptance { .. }, Call::Cancel { number }) => self.may_cancel(tables, *number),
            (Stage::Acceptance { closes }, Call::Close { time, last_sale }) => {
                self.may_close(closes, source, *time, *last_sale)
            }
            (Stage::Satisfaction { .. }, Call::Report { ticket, filled }) => {
                self.may_report(tables, *ticket, *filled)
            }
            (Stage::Matched, Call::Report { ticket, filled }) => {
                self.may_report(tables, *ticket, *filled)
            }
            (Stage::Satisfaction { deadline, .. }, Call::Match { time }) => {
                self.may_match(deadline, tables, *time)
            }
            (Stage::Matched, Call::Finish { time }) => self.may_come(*time),
            (Stage::Acceptance { .. }, Call::Abort { time }) => self.may_come(*time),
            (Stage::Satisfaction { .. }, Call::Abort { time }) => self.may_come(*time),
            (Stage::Matched, Call::Abort { time }) => self.may_come(*time),
            _ => Err(Refusal::WrongStage),
        }
    }

    // All that a call asks: the sizes of the tables, the stage, and its own questions.
    fn may_turn<S: QuoteSource>(
        &self,
        call: &Call,
        source: &S,
        tables: &Tables<'_>,
    ) -> Result<(), Refusal>
        ensures { let m = S.meaning source.now in
            let h = table_rows tables.now in
            result_err result ≡ first_no (questions self.now m h (asked call.now)) }
    {
        if !tables.sizes_fit() {
            return Err(Refusal::TableSizes);
        }
        self.may_call(call, source, tables)
    }

    /// The refusal that a call meets; none where it is granted.
    pub fn refusal<S: QuoteSource>(
        &self,
        call: &Call,
        source: &S,
        tables: &Tables<'_>,
    ) -> Option<Refusal>
        ensures is { let m = S.meaning source.now in
            let h = table_rows tables.now in
            result ≡ first_no (questions self.now m h (asked call.now)) }
        ensures number { let m = S.meaning source.now in
            let h = table_rows tables.now in
            met_number result ≡ first_number (numbered self.now m h (asked call.now)) }
    {
        self.may_turn(call, source, tables).err()
    }

    // What a call does that is not refused.
    fn grant<S: QuoteSource>(&mut self, call: &Call, source: &S, tables: &mut Tables<'_>) -> Answer
        requires { let m = S.meaning source.now in
            let h = table_rows tables.old in
            first_no (questions self.old m h (asked call.now)) ≡ None }
        ensures called { let m = S.meaning source.now in
            let h = table_rows tables.old in
            Called self.old m h (asked call.now) (granted self.new (table_rows tables.new) result) }
        ensures names { SameTables tables.old tables.new }
    {
        // Each call in the stages that it fits; the questions left no other pair.
        match (self.stage, call) {
            (Stage::Open, Call::Begin { time, order, facts }) => {
                self.begin(*time, *order, *facts, tables)
            }
            (Stage::Acceptance { .. }, Call::Enter { order }) => self.enter(*order, tables),
            (Stage::Acceptance { .. }, Call::Cancel { number }) => self.cancel(*number, tables),
            (Stage::Acceptance { .. }, Call::Close { time, last_sale }) => {
                self.close(*time, *last_sale, source, tables)
            }
            (Stage::Satisfaction { .. }, Call::Report { ticket, filled }) => {
                self.report(*ticket, *filled, false, tables)
            }
            (Stage::Matched, Call::Report { ticket, filled }) => {
                self.report(*ticket, *filled, true, tables)
            }
            (Stage::Satisfaction { price, .. }, Call::Match { time }) => {
                self.match_sides(price, *time, tables)
            }
            (Stage::Matched, Call::Finish { time }) => self.finish(*time),
            (Stage::Acceptance { .. }, Call::Abort { time }) => self.abort(*time, tables),
            (Stage::Satisfaction { .. }, Call::Abort { time }) => self.abort(*time, tables),
            (Stage::Matched, Call::Abort { time }) => self.abort(*time, tables),
            _ => unreachable!(),
        }
    }

    // What a call does, refused or not. Call, source and tables are the arguments of the public call, handed on as they are.
    fn turn<S: QuoteSource>(
        &mut self,
        call: &Call,
        source: &S,
        tables: &mut Tables<'_>,
    ) -> Result<Answer, Refusal>
        ensures called { let m = S.meaning source.now in
            let h = table_rows tables.old in
            Called self.old m h (asked call.now) (left self.new tables.new result) }
        ensures names { SameTables tables.old tables.new }
    {
        self.may_turn(call, source, tables)?;
        Ok(self.grant(call, source, tables))
    }

    /// Takes a call: it is refused by the first "no" of its questions, and then the engine and every table are as they
    /// stood; else it is granted, and does what the rules say.
    pub fn call<S: QuoteSource>(
        &mut self,
        call: &Call,
        source: &S,
        tables: &mut Tables<'_>,
    ) -> Result<Answer, Refusal>
        ensures called { let m = S.meaning source.now in
            let h = table_rows tables.old in
            Called self.old m h (asked call.now) (left self.new tables.new result) }
        ensures refused { Untouched self.old (table_rows tables.old)
            (left self.new tables.new result) }
        ensures unread { let m = S.meaning source.now in
            let h = table_rows tables.old in
            Unread self.old m h (asked call.now) (left self.new tables.new result) }
        ensures clock { IfOk result (λ answer. Clock self.old (asked call.now) answer self.new) }
        ensures numbers { let m = S.meaning source.now in
            let h = table_rows tables.old in
            Numbered self.old m h (asked call.now) (numbers_of result) }
        ensures sizes { SameSizes (table_rows tables.new) (table_rows tables.old) }
        ensures names { SameTables tables.old tables.new }
    {
        self.turn(call, source, tables)
    }
}
