//! What the benchmarks of tests/ call from outside: insertion, tickets, and the calls of an engine, as C links them.

#![tactic(auto)]

pub mod calls;
pub mod export;
pub mod row;
