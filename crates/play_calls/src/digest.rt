//! A digest of an engine and its tables: FNV-1a over the numbers that they hold, each taken whole.
ghost use Rattle.std.specs.Prelude.{◌≡◌, ℕ, List, [], ◌∷◌};
ghost use Rattle.std.specs.List.{flat_map};
ghost use Rattle.play_calls.specs.Digests.{mixed, row_numbers, quote_numbers, ticket_numbers, stage_numbers, engine_numbers, memory_numbers, desk_numbers};

use desk::{Desk, Memory};
use engine::{Engine, Stage};
use market::Quote;
use orders::OrderRow;
use routing::Ticket;

// Where a digest begins, and by what each step multiplies it: the two constants of FNV-1a in 64 bits.
const BASIS: u64 = 0xcbf2_9ce4_8422_2325;

const PRIME: u64 = 0x0000_0100_0000_01b3;

// Whatever has numbers for a digest.
trait Mixed {
    ghost numbers: { Self → List ℕ };

    // A digest with these numbers mixed into it.
    fn mixed(&self, digest: u64) -> u64
        ensures { result ≡ mixed digest (numbers self.now) };
}

// The numbers of several, one after another.
fn mixed_all<T: Mixed>(values: &[T], digest: u64) -> u64
    ensures { result ≡ mixed digest (flat_map T.numbers values.now) }
{
    values
        .iter()
        .fold(digest, |digest, value| value.mixed(digest))
}

impl Mixed for u64 {
    ghost numbers = { λ n. n ∷ [] };

    fn mixed(&self, digest: u64) -> u64 {
        (digest ^ *self).wrapping_mul(PRIME)
    }
}

impl Mixed for u32 {
    ghost numbers = { λ n. n ∷ [] };

    fn mixed(&self, digest: u64) -> u64 {
        u64::from(*self).mixed(digest)
    }
}

impl Mixed for OrderRow {
    ghost numbers = { row_numbers };

    fn mixed(&self, digest: u64) -> u64 {
        let numbers = [
            self.number,
            self.class,
            self.price,
            self.shares,
            self.rest,
            self.here,
            self.away,
            self.out,
            self.cancelled,
            self.late,
        ];
        mixed_all(&numbers, digest)
    }
}

impl Mixed for Quote {
    ghost numbers = { quote_numbers };

    fn mixed(&self, digest: u64) -> u64 {
        mixed_all(&[self.price, self.shares, self.venue], digest)
    }
}

impl Mixed for Ticket {
    ghost numbers = { ticket_numbers };

    fn mixed(&self, digest: u64) -> u64 {
        let reported = u32::from(self.reported);
        let numbers = [self.order, self.venue, self.price, self.shares, reported];
        mixed_all(&numbers, digest)
    }
}

// The stage with its two numbers, 0 where it has none: when it may be closed, or the price and the deadline.
impl Mixed for Stage {
    ghost numbers = { stage_numbers };

    fn mixed(&self, digest: u64) -> u64 {
        let (first, second) = match *self {
            Stage::Acceptance { closes } => (closes, 0),
            Stage::Satisfaction { price, deadline } => (price, deadline),
            _ => (0, 0),
        };
        mixed_all(&[u32::from(*self), first, second], digest)
    }
}

impl Mixed for Engine {
    ghost numbers = { engine_numbers };

    fn mixed(&self, digest: u64) -> u64 {
        let used = self.used();
        // No From leads from a usize to a u64.
        let counts = [
            used.buys as u64,
            used.sells as u64,
            used.bids as u64,
            used.offers as u64,
            used.tickets as u64,
        ];
        mixed_all(&counts, self.stage().mixed(digest))
    }
}

// Every row of the tables, in use or not, in this order of the tables.
impl Mixed for Memory {
    ghost numbers = { memory_numbers };

    fn mixed(&self, digest: u64) -> u64 {
        let digest = mixed_all(&self.buys, digest);
        let digest = mixed_all(&self.sells, digest);
        let digest = mixed_all(&self.bids, digest);
        let digest = mixed_all(&self.offers, digest);
        mixed_all(&self.tickets, digest)
    }
}

/// One number of 64 bits that mixes the stage, the numbers of rows in use and every row of a desk.
pub fn digest_of(desk: &Desk) -> u64
    ensures { result ≡ mixed BASIS (desk_numbers desk.now) }
{
    let digest = desk.engine.mixed(BASIS);
    desk.memory.mixed(digest)
}
