//! A desk that runs the auction of one security: the engine, its tables, and the table of outside venues.
ghost use Rattle.std.specs.Prelude.{◌≡◌, ℕ, true, false, [], Ok, Option, IfOk};
ghost use Rattle.engine.specs.declared.stage.Issue.TheVariants.{Ordinary};
ghost use Rattle.engine.specs.States.{made};
ghost use Rattle.engine.specs.Asked.{asked};
ghost use Rattle.engine.specs.Effects.{emptied};
ghost use Rattle.engine.specs.Answers.{numbers_of};
ghost use Rattle.engine.specs.Outstanding.{outstanding_of, Outstanding, outstanding_numbers, NumberedOutstanding};
ghost use Rattle.engine.specs.Steps.{Called, SameSizes, Untouched, Unread};
ghost use Rattle.engine.specs.Clock.{Clock};
ghost use Rattle.engine.specs.Numbered.{Numbered};
ghost use Rattle.auction.specs.Tallies.{Tally, first_tally};
ghost use Rattle.auction.specs.Posts.{Posts, no_posts};
ghost use Rattle.auction.specs.Histories.{History};
ghost use Rattle.auction.specs.Laws.{OpenBy};
ghost use Rattle.auction.specs.Runs.{Lawful, NoneYet, OpenNow};
ghost use Rattle.desk.specs.Desks.{rows_of, desk_market, left_at};

use crate::lend;
use crate::memory::Memory;
use engine::{Answer, Call, Engine, Issue, Tables};
use market::{Refusal, VenueTable};

/// An engine with its venue table, and the memory of its tables.
#[derive(Clone, Debug, Drop, PartialEq, Eq)]
pub struct Desk {
    /// The engine of the one security.
    pub engine: Engine,
    /// What the outside venues quote, and whether trading is halted.
    pub venues: VenueTable,
    /// The rows of the tables that every call is lent.
    pub memory: Memory,
}

impl Desk {
    /// An engine just made, empty tables, and no venue that quotes.
    pub fn new() -> Desk
        ensures engine { result.engine ≡ made Ordinary }
        ensures market { desk_market result ≡ record { bids = []; offers = []; halted = false } }
        ensures rows { rows_of result ≡ emptied (rows_of result) }
        ensures run { History result.engine (rows_of result) first_tally no_posts }
    {
        Desk {
            engine: Engine::new(Issue::Ordinary),
            venues: VenueTable::new(),
            memory: Memory::new(),
        }
    }

    /// Makes a call of the engine on the venues and the memory of the desk (`auction::call`). `Err` is the refusal of the first
    /// question that is answered no, with its number from 1 to 23, and then the desk is as it stood.
    pub fn call(&mut self, call: Call) -> Result<Answer, Refusal>
        ensures called { Called self.old.engine (desk_market self.old) (rows_of self.old) (asked call)
            (left_at self.new result) }
        ensures refused { Untouched self.old.engine (rows_of self.old) (left_at self.new result) }
        ensures unread { Unread self.old.engine (desk_market self.old) (rows_of self.old) (asked call)
            (left_at self.new result) }
        ensures clock { IfOk result
            (λ answer. Clock self.old.engine (asked call) answer self.new.engine) }
        ensures numbers { Numbered self.old.engine (desk_market self.old) (rows_of self.old) (asked call)
            (numbers_of result) }
        ensures lawful { (y : Tally) (p : Posts) → History self.old.engine (rows_of self.old) y p
            → Lawful y p (desk_market self.old) (asked call) (left_at self.new result) }
        ensures sizes { SameSizes (rows_of self.new) (rows_of self.old) }
        ensures venues { self.new.venues ≡ self.old.venues }
    {
        let mut tables = lend!(self.memory);
        auction::call(&mut self.engine, &call, &self.venues, &mut tables)
    }

    /// The number of the first ticket that is not yet reported, from 1, or none where all are (`auction::outstanding`). `Err` is
    /// refusal 1; a desk's tables have the sizes that the engine works on, so it does not come.
    pub fn outstanding(&mut self) -> Result<Option<u32>, Refusal>
        ensures is { result ≡ outstanding_of self.old.engine (rows_of self.old) }
        ensures law { Outstanding self.old.engine (rows_of self.old) result }
        ensures numbers { NumberedOutstanding self.old.engine (rows_of self.old)
            (outstanding_numbers result) }
        ensures fresh { (y : Tally) (p : Posts) → History self.old.engine (rows_of self.old) y p
            → y.begun ≡ false → NoneYet self.old.engine (rows_of self.old) result }
        ensures run { (y : Tally) (p : Posts) → History self.old.engine (rows_of self.old) y p
            → (o : Option ℕ) → result ≡ Ok o → OpenBy y o }
        ensures begun { (y : Tally) (p : Posts) → History self.old.engine (rows_of self.old) y p
            → y.begun ≡ true → OpenNow y result }
        ensures same { self.new ≡ self.old }
    {
        let tables = lend!(self.memory);
        auction::outstanding(&self.engine, &tables)
    }
}
