//! The memory that a desk lends to its engine: the five tables of rows. What tables there are is said in this file alone, for
//! the desk: its type, its start, and the lending of it to a call.
ghost use Rattle.std.specs.Prelude.{◌≡◌};
ghost use Rattle.engine.specs.Effects.{emptied};
ghost use Rattle.desk.specs.Memories.{rows_in};

use engine::{ORDER_ROWS, QUOTE_ROWS, TICKET_ROWS};
use market::Quote;
use orders::OrderRow;
use routing::Ticket;

/// The rows of the five tables, in use or not. How many of each are in use is for the engine to say (`engine::Engine::used`).
#[derive(Clone, Copy, Debug, PartialEq, Eq)]
pub struct Memory {
    /// The rows of the buys.
    pub buys: [OrderRow; ORDER_ROWS],
    /// The rows of the sells.
    pub sells: [OrderRow; ORDER_ROWS],
    /// The rows of the bids that a close noted.
    pub bids: [Quote; QUOTE_ROWS],
    /// The rows of the offers that a close noted.
    pub offers: [Quote; QUOTE_ROWS],
    /// The rows of the tickets, the first of them ticket 1.
    pub tickets: [Ticket; TICKET_ROWS],
}

impl Memory {
    /// Tables of the sizes that the engine works on, every row empty.
    pub fn new() -> Memory
        ensures { rows_in result ≡ emptied (rows_in result) }
    {
        Memory {
            buys: [OrderRow::empty(); ORDER_ROWS],
            sells: [OrderRow::empty(); ORDER_ROWS],
            bids: [Quote::none(); QUOTE_ROWS],
            offers: [Quote::none(); QUOTE_ROWS],
            tickets: [Ticket::empty(); TICKET_ROWS],
        }
    }
}

/// Lends the tables of a memory, which is a place such as `desk.memory`: the value is `engine::Tables`, by which the caller imports
/// it. No function, since a contract cannot say yet what so many borrows leave behind when they end.
#[macro_export]
macro_rules! lend {
    ($memory:expr) => {
        Tables {
            buys: &mut $memory.buys,
            sells: &mut $memory.sells,
            bids: &mut $memory.bids,
            offers: &mut $memory.offers,
            tickets: &mut $memory.tickets,
        }
    };
}
