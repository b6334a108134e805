//! Prices and counts as people read them.

#![tactic(auto)]

mod numbers;

pub use numbers::{Column, Dollars, Grouped};
