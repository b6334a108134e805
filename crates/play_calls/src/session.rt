//! A desk that is played from its start.
ghost use Rattle.std.specs.Prelude.{◌≡◌};
ghost use Rattle.play_calls.specs.Sessions.{InRun};
ghost use Rattle.play_calls.specs.Instructions.{InstructionPlayed, GoesOn};

use crate::line::Instruction;
use crate::play;
use crate::reply::Reply;
use desk::Desk;
use market::Refusal;

/// A desk and what is known of it: whatever lines were played, its run is a history, so each call among them was lawful.
#[derive(Drop)]
pub struct Session {
    /// The desk that the lines are played on.
    pub desk: Desk,
    ghost in_run: { InRun desk },
}

impl Session {
    /// A desk at its start: a just made engine for an ordinary issue, empty tables, and no quotes.
    pub fn new() -> Session {
        Session { desk: Desk::new() }
    }

    /// Does what a line says (`play`). `Err` is the refusal of its call, its question or its change of the venues.
    pub fn play(&mut self, instruction: Instruction) -> Result<Reply, Refusal>
        ensures played { InstructionPlayed self.old.desk instruction self.new.desk result }
        ensures goes_on { GoesOn self.old.desk instruction self.new.desk result }
    {
        play(&mut self.desk, instruction)
    }
}
