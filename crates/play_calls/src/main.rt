//! Plays calls on an engine: a line of standard input is a call, a change of the venues or a new engine, and a line of standard
//! output its answer with a digest of the engine and of every table.

#![tactic(auto)]

ghost use Rattle.play_calls.specs.Instructions.{InstructionPlayed, GoesOn};

mod digest;
mod line;
mod reply;
mod session;

use desk::Desk;
use digest::digest_of;
use engine::Engine;
use line::Instruction;
use market::Refusal;
use reply::Reply;
use session::Session;
use std::io::{BufRead, BufReader};

// Does what a line says: the instructions are a closed list, each with values of its own.
fn play(desk: &mut Desk, instruction: Instruction) -> Result<Reply, Refusal>
    ensures played { InstructionPlayed desk.old instruction desk.new result }
    ensures goes_on { GoesOn desk.old instruction desk.new result }
{
    match instruction {
        Instruction::Quote {
            venue,
            side,
            price,
            shares,
        } => desk.venues.set(venue, side, price, shares)?,
        Instruction::Clear { venue, side } => desk.venues.clear(venue, side)?,
        Instruction::Halted { halted } => desk.venues.set_halted(halted),
        Instruction::Made { issue } => desk.engine = Engine::new(issue),
        Instruction::Call { call } => return Ok(Reply::Called(desk.call(call)?)),
        Instruction::Outstanding => return Ok(Reply::Outstanding(desk.outstanding()?)),
    }
    Ok(Reply::Done)
}

fn main(rt: HostRuntime) -> anyhow::Result<()> {
    let mut session = Session::new();
    for text in BufReader::new(rt.alloc(), rt.stdin())?.lines(rt.alloc()) {
        let instruction = text?.as_str().parse::<Instruction>()?;
        let played = session.play(instruction);
        let digest = digest_of(&session.desk);
        match played {
            Ok(reply) => println!(rt; "ok{reply} {digest:016x}")?,
            Err(refusal) => {
                let number = u32::from(refusal);
                println!(rt; "no {number} {digest:016x}")?;
            }
        }
    }
    Ok(())
}
