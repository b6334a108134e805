//! A call at an edge, made on a clone of a scene.
use call_words::{AnswerWords, Outcome};
use desk::Desk;
use engine::{Answer, Call};
use market::Refusal;
use std::io;

/// The line that heads the edges of a refusal.
pub fn head(rt: &HostRuntime, refusal: Refusal) -> io::Result<()> {
    let number = u32::from(refusal);
    println!(rt; "")?;
    println!(rt; "{number}: {refusal}")
}

/// What is said of that on which a refused call was made.
pub fn stands(same: bool) -> &'static str {
    if same {
        "all stands"
    } else {
        "SOMETHING MOVED"
    }
}

/// What came of a call, and where it was refused, whether what it was made on is the same.
pub fn print_edge(
    rt: &HostRuntime,
    what: &str,
    answer: Result<Answer, Refusal>,
    same: bool,
) -> io::Result<()> {
    match answer {
        Ok(answer) => {
            let words = AnswerWords(answer);
            println!(rt; "  {what}: {words}")
        }
        Err(refusal) => {
            let number = u32::from(refusal);
            let stands = stands(same);
            println!(rt; "  {what}: {number}, {stands}")
        }
    }
}

/// Makes a call on a clone of a desk.
pub fn edge(rt: &HostRuntime, desk: &Desk, what: &str, call: &Call) -> anyhow::Result<()> {
    let mut played = desk.clone()?;
    let answer = played.call(call.clone()?);
    print_edge(rt, what, answer, played == *desk)?;
    Ok(())
}

/// Makes calls, each on a clone of a desk of its own, and each with what is said of it.
pub fn edges(rt: &HostRuntime, desk: &Desk, calls: &[(&str, Call)]) -> anyhow::Result<()> {
    for (what, call) in calls {
        edge(rt, desk, what, call)?;
    }
    Ok(())
}

/// Makes a call that a story needs, and says what came of it.
pub fn tell(rt: &HostRuntime, desk: &mut Desk, what: &str, call: Call) -> io::Result<()> {
    let outcome = Outcome(desk.call(call));
    println!(rt; "  {what}: {outcome}")
}
