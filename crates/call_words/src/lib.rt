//! Calls, answers and times of the day in words.

#![tactic(auto)]

mod words;

pub use words::{AnswerWords, CallWords, OrderWords, Outcome, TimeOfDay, class_name, side_name};
