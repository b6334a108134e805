//! The phases of the cycle, each with the calls that are made in it.
use crate::session::{
    BEGIN, CANCELLED, CLOSE, EARLY_CLOSE, EARLY_MATCH, FACTS, FINISH, LAST_SALE, LATE_REPORT,
    MATCH, Quoted, REPORTS, UNKNOWN, entries, quotes, starts,
};
use call_words::{CallWords, Outcome, TimeOfDay};
use desk::{Depth, Desk, Memory};
use engine::{Answer, Call};
use market::{Refusal, Side, best_price};
use report::{Dollars, Grouped};
use sheets::{print_depth, print_outstanding};
use std::io;

// A quote on a side has a word of its own, bid or offer.
fn print_best(rt: &HostRuntime, desk: &Desk, side: Side, name: &str) -> io::Result<()> {
    match best_price(&desk.venues, side) {
        Some(price) => {
            let dollars = Dollars(price);
            println!(rt; "  best {name}: {dollars}")
        }
        None => println!(rt; "  best {name}: none"),
    }
}

/// The venues quote.
pub fn quote(rt: &HostRuntime, desk: &mut Desk) -> io::Result<()> {
    println!(rt; "What the venues quote")?;
    for quoted in quotes() {
        let Quoted {
            venue,
            side,
            price,
            shares,
        } = quoted;
        let answer = desk.venues.set(venue, u32::from(side), price, shares);
        let outcome = Outcome(answer.map(|()| Answer::Done));
        let does = match side {
            Side::Buy => "bids",
            Side::Sell => "offers",
        };
        let shares = Grouped(u64::from(shares));
        let dollars = Dollars(price);
        println!(rt; "  venue {venue} {does} {shares} at {dollars}: {outcome}")?;
    }
    print_best(rt, desk, Side::Buy, "bid")?;
    print_best(rt, desk, Side::Sell, "offer")
}

// Makes a call, prints it with its answer, and hands the answer on. The line is printed once the answer is there, in one write; the
// desk takes the call, so what is printed of it is a clone.
fn make(rt: &HostRuntime, desk: &mut Desk, call: Call) -> io::Result<Result<Answer, Refusal>> {
    let asked = call.clone()?;
    let answer = desk.call(call);
    let words = CallWords(&asked);
    let outcome = Outcome(answer);
    println!(rt; "  {words}: {outcome}")?;
    Ok(answer)
}

// Makes a call, and prints it with its answer.
fn play(rt: &HostRuntime, desk: &mut Desk, call: Call) -> io::Result<()> {
    make(rt, desk, call).map(|_| ())
}

/// The start order opens the acceptance; with too few shares it does not.
pub fn begin(rt: &HostRuntime, desk: &mut Desk) -> io::Result<()> {
    println!(rt; "")?;
    println!(rt; "The start")?;
    for order in starts() {
        let call = Call::Begin {
            time: BEGIN,
            order,
            facts: FACTS,
        };
        play(rt, desk, call)?;
    }
    Ok(())
}

/// Members enter orders.
pub fn enter(rt: &HostRuntime, desk: &mut Desk) -> io::Result<()> {
    println!(rt; "")?;
    println!(rt; "The acceptance")?;
    for order in entries() {
        play(rt, desk, Call::Enter { order })?;
    }
    Ok(())
}

/// A member cancels, after a number that no order has; the desk is too early to close, and to finish.
pub fn cancel(rt: &HostRuntime, desk: &mut Desk) -> io::Result<()> {
    play(rt, desk, Call::Cancel { number: UNKNOWN })?;
    play(rt, desk, Call::Cancel { number: CANCELLED })?;
    let early = Call::Close {
        time: EARLY_CLOSE,
        last_sale: LAST_SALE,
    };
    play(rt, desk, early)?;
    play(rt, desk, Call::Finish { time: EARLY_CLOSE })
}

/// The close fixes the price.
pub fn close(rt: &HostRuntime, desk: &mut Desk) -> io::Result<()> {
    println!(rt; "")?;
    println!(rt; "The close")?;
    // The orders as the close finds them.
    let Memory { buys, sells, .. } = desk.memory;
    let call = Call::Close {
        time: CLOSE,
        last_sale: LAST_SALE,
    };
    let answer = make(rt, desk, call)?;
    if let Ok(Answer::Priced { price, .. }) = answer {
        print_depth(rt, &Depth::at_close(&buys, &sells, &desk.memory), price)?;
    }
    Ok(())
}

/// Tickets are reported, the first of them with too many shares at first, and the sides are matched at the deadline.
pub fn satisfy(rt: &HostRuntime, desk: &mut Desk) -> io::Result<()> {
    println!(rt; "")?;
    let deadline = TimeOfDay(MATCH);
    println!(rt; "Until the deadline, {deadline}")?;
    print_outstanding(rt, desk)?;
    for report in REPORTS {
        play(rt, desk, report)?;
    }
    print_outstanding(rt, desk)?;
    play(rt, desk, Call::Match { time: EARLY_MATCH })?;
    play(rt, desk, Call::Match { time: MATCH })
}

/// A report that comes late, and the end.
pub fn finish(rt: &HostRuntime, desk: &mut Desk) -> io::Result<()> {
    println!(rt; "")?;
    println!(rt; "After the match")?;
    play(rt, desk, LATE_REPORT)?;
    print_outstanding(rt, desk)?;
    play(rt, desk, Call::Finish { time: FINISH })
}
