//! The auction engine: its stages, its calls, and the one public call that asks and does.

#![tactic(auto)]

mod answer;
mod begin;
mod book;
mod call;
mod calls;
mod cancel;
mod close;
mod ending;
mod enter;
mod laws;
mod limits;
mod listed;
mod matching;
mod minimum;
mod outstanding;
mod quotes;
mod report;
mod routes;
mod stage;
mod state;
mod tables;

pub use answer::{Answer, CloseAnswer, Numbers};
pub use call::{Call, Facts};
pub use laws::question_laws;
pub use limits::{
    CYCLE_GAP, DAY_END, FIRST_START, LAST_START, LONGEST_ACCEPTANCE, ORDER_ROWS, QUOTE_AGE,
    QUOTE_ROWS, SHORTEST_ACCEPTANCE, TICKET_ROWS, TICKET_TIME,
};
pub use minimum::minimum_size;
pub use outstanding::OutstandingNumbers;
pub use stage::{Issue, Stage};
pub use state::{Engine, Used};
pub use tables::Tables;
