//! Why a call is refused. Each refusal has a number of its own, which callers get.
ghost use Rattle.std.specs.Prelude.{◌≡◌, Some};
ghost use Rattle.market.specs.Refusals.{refusal_number, refusal_words};

use std::error::Error;
use std::fmt;

/// The first question of a call that is answered "no" (docs/RULES.md, "The questions of a call"). Each case says its number, what
/// asks it, and when it refuses. What is refused leaves everything as it stood.
#[derive(Clone, Copy, Debug, PartialEq, Eq, Hash)]
pub enum Refusal {
    /// 1, every call of the engine, and what asks for outstanding tickets: the tables have not the sizes that the engine works on.
    TableSizes = 1,
    /// 2, every call of the engine: the engine is in another stage than the call needs.
    WrongStage = 2,
    /// 3, begin, close, match, finish and abort: the time, in milliseconds since midnight, is past the end of the day, or before the
    /// last accepted one.
    TimeRange = 3,
    /// 4, begin, close and image pricing: a side has more quotes than a source may list, or one has a price or shares that no quote may
    /// have.
    Quotes = 4,
    /// 5, begin: trading in the security is halted.
    TradingHalted = 5,
    /// 6, begin: there is not both a bid and an offer, or a bid is above an offer.
    NoMarket = 6,
    /// 7, begin and enter: the order is not well formed.
    OrderForm = 7,
    /// 8, begin: the start order is a short sale under restriction.
    ShortSale = 8,
    /// 9, begin: the start order has not the minimum size at its price.
    StartSize = 9,
    /// 10, begin: the start order does not reach the best quote of the other side.
    StartReach = 10,
    /// 11, begin: the cycle may not start at this time of day, so soon after the first two-sided quote, or so soon after the last cycle.
    StartTime = 11,
    /// 12, begin: routing is not available.
    NoRouting = 12,
    /// 13, begin: the acceptance length, in milliseconds, is out of its range.
    AcceptanceLength = 13,
    /// 14, enter: the number is on the book already.
    NumberTaken = 14,
    /// 15, enter: the side has no free row.
    SideFull = 15,
    /// 16, cancel: the number is not on the book.
    UnknownOrder = 16,
    /// 17, cancel: the order has no rest.
    NoRest = 17,
    /// 18, close: the acceptance is not over yet.
    CloseEarly = 18,
    /// 19, close and image pricing: the last eligible sale is above the highest price.
    LastSale = 19,
    /// 20, report: there is no such ticket.
    UnknownTicket = 20,
    /// 21, report: the ticket is reported already.
    TicketReported = 21,
    /// 22, report: more is filled than the ticket has shares.
    TicketFills = 22,
    /// 23, match: tickets are unreported, and the deadline is not reached.
    TicketsOut = 23,
    /// 24, image pricing: the output has not the length of the prices that are written there, 16 bytes.
    OutputLength = 24,
    /// 25, image pricing: the bytes have not the layout of a book image.
    ImageLayout = 25,
    /// 26, image pricing: an order of the image has a price or shares that no order may have.
    ImageOrder = 26,
    /// 27, the venue table: there is no such venue or side.
    VenueOrSide = 27,
    /// 28, the venue table: the price or the shares of a quote are none that a quote may have.
    QuoteValue = 28,
}

impl Refusal {
    /// What it says, in words, as it is displayed.
    pub fn words(self) -> &'static str
        ensures { result.now ≡ refusal_words self }
    {
        match self {
            Refusal::TableSizes => "the tables have not 512, 512, 32, 32 and 544 rows",
            Refusal::WrongStage => "the engine is in another stage than the call needs",
            Refusal::TimeRange =>
                "the time is past the end of the day, or before the last accepted one",
            Refusal::Quotes =>
                "a side has more than 32 outside quotes, or one has a price that is not permitted or not 1 to 1,000,000 shares",
            Refusal::TradingHalted => "trading in the security is halted",
            Refusal::NoMarket => "there is not both a bid and an offer, or a bid is above an offer",
            Refusal::OrderForm => "the order is not well formed",
            Refusal::ShortSale => "the start order is a short sale under restriction",
            Refusal::StartSize => "the start order has not the minimum size",
            Refusal::StartReach =>
                "the start order does not reach the best quote of the other side",
            Refusal::StartTime => "a cycle may not start at this time",
            Refusal::NoRouting => "routing is not available",
            Refusal::AcceptanceLength => "the acceptance length is not 475 to 525 ms",
            Refusal::NumberTaken => "the number is on the book already",
            Refusal::SideFull => "the side has no free row",
            Refusal::UnknownOrder => "the number is not on the book",
            Refusal::NoRest => "the order has no rest",
            Refusal::CloseEarly => "the acceptance is not over yet",
            Refusal::LastSale => "the last sale is above 4,000,000,000 points",
            Refusal::UnknownTicket => "there is no such ticket",
            Refusal::TicketReported => "the ticket is reported already",
            Refusal::TicketFills => "more is filled than the ticket has shares",
            Refusal::TicketsOut => "tickets are unreported, and the deadline is not reached",
            Refusal::OutputLength => "the output has not 16 bytes",
            Refusal::ImageLayout => "the bytes have not the layout of a book image",
            Refusal::ImageOrder =>
                "an order has a price that is not permitted or not 1 to 1,000,000 shares",
            Refusal::VenueOrSide =>
                "there is no such venue, 1 to 32, or side, 1 for bids and 2 for offers",
            Refusal::QuoteValue =>
                "the price is not permitted, or the shares are not 1 to 1,000,000",
        }
    }
}

// Written by hand: a derived Display has no contract.
impl fmt::Display for Refusal {
    ghost output = { λ refusal. Some (refusal_words refusal) };

    fn fmt<W: fmt::Write>(&self, f: &mut fmt::Formatter<W>) -> fmt::Result {
        let words = self.words();
        write!(f, "{words}")
    }
}

impl Error for Refusal {}

impl From<Refusal> for u32 {
    ghost from_gives = { λ refusal number. number ≡ refusal_number refusal };

    /// The number of a refusal, from 1.
    fn from(refusal: Refusal) -> u32 {
        refusal as u32
    }
}
