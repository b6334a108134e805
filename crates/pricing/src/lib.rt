//! The SNAP Price of a book: demand, supply and count, the candidates, and the outcome of a close.

#![tactic(auto)]

mod cause;
mod close;
mod ladder;
mod laws;
mod level;
mod limits;
mod range;
mod view;

pub use cause::Cause;
pub use close::{close_price, is_crossed, is_locked, locked_or_crossed, reference_price};
pub use laws::price_laws;
pub use level::{AsLevel, Level, executable, next_above};
pub use view::BookView;
