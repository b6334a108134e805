//! What a side owes to outside quotes at a price (owed.rt), and the tickets that send it there (ticket.rt, tickets.rt).
//! docs/RULES.md, "Shares in rank order", "What is owed to outside quotes" and "Tickets".

#![tactic(auto)]

mod laws;
mod owed;
mod ticket;
mod tickets;

pub use laws::{allotment_laws, row_laws, ticket_laws};
pub use owed::{owed_shares, quoted_to};
pub use ticket::Ticket;
pub use tickets::write_tickets;
