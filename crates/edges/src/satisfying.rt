//! The edges of satisfaction and after it: reports, the match, the end.
use crate::edge::{edge, edges, head};
use crate::scenes::{DEADLINE, matched, satisfying};
use desk::Desk;
use engine::{Call, DAY_END};
use market::Refusal;

fn report(ticket: u32, filled: u32) -> Call {
    Call::Report { ticket, filled }
}

// In satisfaction, the ticket reported.
fn reported() -> Result<Desk, Refusal> {
    let mut desk = satisfying()?;
    desk.call(report(1, 120))?;
    Ok(desk)
}

fn tickets(rt: &HostRuntime, desk: &Desk, reported: &Desk) -> anyhow::Result<()> {
    head(rt, Refusal::UnknownTicket)?;
    edges(
        rt,
        desk,
        &[
            ("report ticket 1, the only one", report(1, 120)),
            ("report ticket 0", report(0, 120)),
            ("report ticket 2", report(2, 120)),
        ],
    )?;
    head(rt, Refusal::TicketReported)?;
    edge(rt, desk, "report it", &report(1, 120))?;
    edge(rt, reported, "report it again", &report(1, 120))?;
    head(rt, Refusal::TicketFills)?;
    edges(
        rt,
        desk,
        &[
            ("150 filled of 150", report(1, 150)),
            ("151 filled of 150", report(1, 151)),
            ("none filled of 150", report(1, 0)),
        ],
    )
}

fn match_at(time: u32) -> Call {
    Call::Match { time }
}

fn matching(rt: &HostRuntime, desk: &Desk, reported: &Desk) -> anyhow::Result<()> {
    head(rt, Refusal::TicketsOut)?;
    let early = DEADLINE - 1;
    edge(
        rt,
        desk,
        "match at the deadline, the ticket out",
        &match_at(DEADLINE),
    )?;
    edge(rt, desk, "match a millisecond before", &match_at(early))?;
    edge(
        rt,
        reported,
        "match then, the ticket reported",
        &match_at(early),
    )
}

fn finish(time: u32) -> Call {
    Call::Finish { time }
}

fn times(rt: &HostRuntime) -> anyhow::Result<()> {
    head(rt, Refusal::TimeRange)?;
    edges(
        rt,
        &matched()?,
        &[
            ("finish at the time of the match", finish(DEADLINE)),
            ("finish a millisecond before", finish(DEADLINE - 1)),
            ("finish at 23:59:59.999", finish(DAY_END)),
            ("finish at midnight", finish(DAY_END + 1)),
        ],
    )
}

/// Plays the edges of satisfaction and after it.
pub fn play(rt: &HostRuntime) -> anyhow::Result<()> {
    let desk = satisfying()?;
    let reported = reported()?;
    tickets(rt, &desk, &reported)?;
    matching(rt, &desk, &reported)?;
    times(rt)
}
