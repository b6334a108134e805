//! The printed sheets of a desk: its book, its tickets, the depth of a close, its trades, its orders and its accounts.

#![tactic(auto)]

mod accounts;
mod sheets;

pub use sheets::{
    print_book, print_checks, print_depth, print_orders, print_outstanding, print_tickets,
    print_trades,
};
