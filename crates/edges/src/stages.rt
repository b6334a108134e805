//! Which call is taken in which stage.
use crate::edge::{edge, head};
use crate::scenes::{DEADLINE, accepting, begin, buy, close, matched, open, order, satisfying};
use engine::Call;
use market::{Refusal, Side};

// A call in each of the four stages.
fn in_stages(rt: &HostRuntime, name: &str, call: &Call) -> anyhow::Result<()> {
    println!(rt; "  {name}")?;
    edge(rt, &open()?, "  open", call)?;
    edge(rt, &accepting()?, "  acceptance", call)?;
    edge(rt, &satisfying()?, "  satisfaction", call)?;
    edge(rt, &matched()?, "  matched", call)
}

/// Plays each call in each stage.
pub fn play(rt: &HostRuntime) -> anyhow::Result<()> {
    head(rt, Refusal::WrongStage)?;
    let third = order(3, Side::Buy, 200_400, 100);
    let report = Call::Report {
        ticket: 1,
        filled: 120,
    };
    let calls = [
        ("begin", begin(buy())),
        ("enter", Call::Enter { order: third }),
        ("cancel", Call::Cancel { number: 1 }),
        ("close", close()),
        ("report", report),
        ("match", Call::Match { time: DEADLINE }),
        ("finish", Call::Finish { time: DEADLINE }),
        ("abort", Call::Abort { time: DEADLINE }),
    ];
    for (name, call) in calls {
        in_stages(rt, name, &call)?;
    }
    Ok(())
}
