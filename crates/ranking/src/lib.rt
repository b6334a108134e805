//! Rank order: what it is to go ahead of another, and a table over lent rows whose entries stand so.

#![tactic(auto)]

mod full;
mod laws;
mod rank;
mod rows;
mod seating;
mod table;

pub use full::Full;
pub use laws::ranking_laws;
pub use rank::Ranking;
pub use rows::first_rows;
pub use seating::{seat, try_seat};
pub use table::RankedTable;
