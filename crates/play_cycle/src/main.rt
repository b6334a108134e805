//! Plays one whole cycle on a table of venues, and prints the record of it.

#![tactic(auto)]

mod cycle;
mod session;

use cycle::{begin, cancel, close, enter, finish, quote, satisfy};
use desk::Desk;
use sheets::{print_book, print_checks, print_orders, print_tickets, print_trades};
use std::io;

fn main(rt: HostRuntime) -> io::Result<()> {
    let mut desk = Desk::new();
    println!(rt; "A SNAP cycle in one security, call by call")?;
    println!(rt; "")?;
    quote(&rt, &mut desk)?;
    begin(&rt, &mut desk)?;
    enter(&rt, &mut desk)?;
    cancel(&rt, &mut desk)?;
    print_book(&rt, &desk, "before the close")?;
    close(&rt, &mut desk)?;
    print_book(&rt, &desk, "after the close")?;
    print_tickets(&rt, &desk, "after the close")?;
    satisfy(&rt, &mut desk)?;
    finish(&rt, &mut desk)?;
    print_tickets(&rt, &desk, "at the end")?;
    print_trades(&rt, &desk)?;
    print_orders(&rt, &desk)?;
    print_checks(&rt, &desk)
}
