//! What the engine's benchmark calls. An engine holds enums, which do not cross to C: so each export makes one and brings
//! it to where the call is measured. The benchmark takes off the time of the same export without that call.
ghost use Rattle.std.specs.Prelude.{◌≡◌, length};
ghost use Rattle.market.specs.Sides.{side_number};
ghost use Rattle.market.specs.Venues.{market_in};
ghost use Rattle.engine.specs.declared.call.Call.TheVariants.{Enter, Close};
ghost use Rattle.engine.specs.States.{table_rows, SameTables};
ghost use Rattle.benches.specs.Calls.{lent, number_of, closed_by, quoted_on, quoted_market, call_with, Brought, Taken, Entered, ClosedSo};

use engine::{Answer, Call, Engine, Facts, Issue, Numbers, Tables};
use market::{Quote, Refusal, Side, VenueTable};
use orders::{Order, OrderRow};
use routing::Ticket;

/// What a close answers, in numbers: the refusal, or 0 with the others.
#[repr(C)]
#[derive(Clone, Copy, Debug, Default, PartialEq, Eq)]
pub struct Closed {
    /// The number of the refusal, 0 where the close is granted.
    pub refusal: u32,
    /// The number of the cause why there is no price, 0 where there is one.
    pub cause: u32,
    /// The price, in points; 0 where there is none.
    pub price: u32,
    /// How many shares find both a buyer and a seller at the price.
    pub count: u64,
    /// How many tickets are written.
    pub tickets: usize,
}

// When the cycle of a benchmark begins, and how long it takes orders.
const BEGIN: u32 = 40_000_000;

const ACCEPTANCE: u32 = 500;

fn number_of(answer: Result<Answer, Refusal>) -> u32
    ensures { result ≡ number_of answer }
{
    Numbers::from(answer).refusal
}

impl From<Result<Answer, Refusal>> for Closed {
    ghost from_gives = { λ answer closed. closed ≡ closed_by answer };

    fn from(answer: Result<Answer, Refusal>) -> Closed {
        let numbers = Numbers::from(answer);
        Closed {
            refusal: numbers.refusal,
            cause: numbers.close.cause,
            price: numbers.close.price,
            count: numbers.close.count,
            tickets: numbers.close.tickets,
        }
    }
}

// Sets quotes on a side of a venue table; one that is refused is left out.
fn set_quotes(venues: &mut VenueTable, side: Side, quotes: &[Quote])
    ensures { market_in venues.new ≡ quoted_on (side_number side) quotes.now (market_in venues.old) }
{
    for quote in quotes {
        venues
            .set(quote.venue, u32::from(side), quote.price, quote.shares)
            .ok();
    }
}

// A venue table with bids and offers.
fn venues_with(bids: &[Quote], offers: &[Quote]) -> VenueTable
    ensures { market_in result ≡ quoted_market bids.now offers.now }
{
    let mut venues = VenueTable::new();
    set_quotes(&mut venues, Side::Buy, bids);
    set_quotes(&mut venues, Side::Sell, offers);
    venues
}

// The call that brings an order in: the first of a cycle begins it.
fn call_with(place: usize, order: Order) -> Call
    ensures { result ≡ call_with place order }
{
    if place > 0 {
        return Call::Enter { order };
    }
    let facts = Facts {
        short_sale: false,
        first_quote: Some(0),
        routing: true,
        acceptance: ACCEPTANCE,
    };
    Call::Begin {
        time: BEGIN,
        order,
        facts,
    }
}

// Makes an engine, begins a cycle with the first order, and enters the others.
fn take_orders(orders: &[Order], venues: &VenueTable, tables: &mut Tables<'_>) -> Engine
    ensures brought { Brought (market_in venues.now) (table_rows tables.old) orders.now (length orders.now) result (table_rows tables.new) }
    ensures names { SameTables tables.old tables.new }
{
    let mut engine = Engine::new(Issue::Ordinary);
    // Which call brings an order in is said by its place, in the contract too.
    for (place, order) in orders.iter().enumerate() {
        auction::call(&mut engine, &call_with(place, *order), venues, tables).ok();
    }
    engine
}

// Takes orders on an outside market of bids and offers, and then a call.
fn call_after(
    orders: &[Order],
    venues: &VenueTable,
    call: Call,
    tables: &mut Tables<'_>,
) -> Result<Answer, Refusal>
    ensures called { Taken (market_in venues.now) (table_rows tables.old) orders.now call (table_rows tables.new) result }
    ensures names { SameTables tables.old tables.new }
{
    let mut engine = take_orders(orders, venues, tables);
    auction::call(&mut engine, &call, venues, tables)
}

/// C lends each table and each list by itself, so both exports take them one by one.
/// Takes orders, and then enters the next one; answers its refusal, or 0.
#[unsafe(no_mangle)]
pub extern "C" fn bench_enter<'a>(
    buys: &'a mut [OrderRow],
    sells: &'a mut [OrderRow],
    bids: &'a mut [Quote],
    offers: &'a mut [Quote],
    tickets: &'a mut [Ticket],
    bids_quoted: &[Quote],
    offers_quoted: &[Quote],
    orders: &[Order],
    next: &Order,
) -> u32
    ensures { Entered (quoted_market bids_quoted.now offers_quoted.now) (lent buys.old sells.old bids.old offers.old tickets.old) orders.now (Enter next.now) (lent buys.new sells.new bids.new offers.new tickets.new) result }
{
    let venues = venues_with(bids_quoted, offers_quoted);
    let mut tables = Tables {
        buys,
        sells,
        bids,
        offers,
        tickets,
    };
    let call = Call::Enter { order: *next };
    number_of(call_after(orders, &venues, call, &mut tables))
}

/// Takes orders, and then closes the cycle.
#[unsafe(no_mangle)]
pub extern "C" fn bench_close<'a>(
    buys: &'a mut [OrderRow],
    sells: &'a mut [OrderRow],
    bids: &'a mut [Quote],
    offers: &'a mut [Quote],
    tickets: &'a mut [Ticket],
    bids_quoted: &[Quote],
    offers_quoted: &[Quote],
    orders: &[Order],
    last_sale: u32,
    closed: &mut Closed,
)
    ensures { ClosedSo (quoted_market bids_quoted.now offers_quoted.now) (lent buys.old sells.old bids.old offers.old tickets.old) orders.now (Close 40000500 last_sale) (lent buys.new sells.new bids.new offers.new tickets.new) closed.new }
{
    let venues = venues_with(bids_quoted, offers_quoted);
    let mut tables = Tables {
        buys,
        sells,
        bids,
        offers,
        tickets,
    };
    let call = Call::Close {
        time: BEGIN + ACCEPTANCE,
        last_sale,
    };
    *closed = Closed::from(call_after(orders, &venues, call, &mut tables));
}
