//! A desk: an engine with its venue table and the memory that it works on, and the depth of a close.

#![tactic(auto)]

mod depth;
mod desk;
mod memory;

pub use depth::{Depth, step_above, step_below};
pub use desk::Desk;
pub use memory::Memory;
