//! Plays each refusal at its edge: the last value that is taken and the first that is refused, and whether a refused call left
//! all as it stood. Then the ninth worked book to its end, with its ticket reported in time and late.

#![tactic(auto)]

mod accepting;
mod edge;
mod images;
mod nine;
mod satisfying;
mod scenes;
mod sizes;
mod stages;
mod starting;
mod starts;
mod venues;

fn main(rt: HostRuntime) -> anyhow::Result<()> {
    println!(rt; "Each refusal at its edge; a refused call says whether all stands as it stood")?;
    sizes::play(&rt)?;
    stages::play(&rt)?;
    starting::play(&rt)?;
    starts::play(&rt)?;
    accepting::play(&rt)?;
    satisfying::play(&rt)?;
    images::play(&rt)?;
    venues::play(&rt)?;
    nine::reported(&rt)?;
    nine::late(&rt)
}
