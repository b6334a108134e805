//! The call that venues make, with what holds of it over every run of calls: docs/RULES.md, "The
//! tally, and the laws over every run".

#![tactic(auto)]

mod runs;
mod turns;

pub use runs::{call, outstanding};
pub use turns::{PlayedCall, call_all};
