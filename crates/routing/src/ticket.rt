//! A ticket: shares of an order that are sent out to a quote of an outside venue. docs/RULES.md, "Tickets".
ghost use Rattle.std.specs.Prelude.{◌≡◌};
ghost use Rattle.routing.specs.Tickets.{empty_ticket};

/// Shares of an order that are sent out to a quote. All zeros, and not reported, where it is empty. Its number is its place in
/// the ticket table, counted from 1.
#[repr(C)]
#[derive(Clone, Copy, Debug, Default, PartialEq, Eq, Hash)]
pub struct Ticket {
    /// The sequence number of the order.
    pub order: u32,
    /// The number of the venue that it goes to, counted from 1.
    pub venue: u32,
    /// The price of the quote, in points.
    pub price: u32,
    /// How many shares go out, at least 1.
    pub shares: u32,
    /// Whether the venue's report on it came in.
    pub reported: bool,
}

impl Ticket {
    /// A row with no ticket in it.
    pub fn empty() -> Ticket
        ensures { result ≡ empty_ticket }
    {
        Ticket::default()
    }
}
