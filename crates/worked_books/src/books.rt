//! The worked books: at most one order a side and one quote a side, and a last sale.
ghost use Rattle.std.specs.Prelude.{◌≡◌, false, length, Some};
ghost use Rattle.std.specs.List.{slice_get};
ghost use Rattle.worked_books.specs.Bytes.{BooksImaged};
ghost use Rattle.worked_books.specs.Table.{books, worked, BooksClose, BooksRoute, SentAt};

use pricing::Level;
use routing::Ticket;

/// A worked book: what each side has, and the last sale.
#[derive(Clone, Copy)]
pub struct Worked {
    /// The order to buy, order 1: its price in points, and its shares.
    pub buy: Option<Level>,
    /// The order to sell, order 2.
    pub sell: Option<Level>,
    /// The bid of venue 1.
    pub bid: Option<Level>,
    /// The offer of venue 1.
    pub offer: Option<Level>,
    /// The last sale before the close, in points; 0 for none.
    pub last_sale: u32,
}

// Shares at a price.
fn at(shares: u32, price: u32) -> Option<Level>
    ensures { result ≡ Some (record { price = price; shares = shares }) }
{
    Some(Level { price, shares })
}

fn book(
    buy: Option<Level>,
    sell: Option<Level>,
    bid: Option<Level>,
    offer: Option<Level>,
    last_sale: u32,
) -> Worked
    ensures { result ≡ record { buy = buy; sell = sell; bid = bid; offer = offer; last_sale = last_sale } }
{
    Worked {
        buy,
        sell,
        bid,
        offer,
        last_sale,
    }
}

/// The worked books: buy, sell, bid, offer, last sale.
pub fn books() -> [Worked; 11]
    ensures { result ≡ worked }
{
    [
        book(at(100, 200_200), at(100, 200_000), None, None, 200_100),
        book(at(100, 200_200), at(100, 200_000), None, None, 200_050),
        book(at(100, 200_200), at(100, 200_000), None, None, 300_000),
        book(
            at(100, 200_200),
            at(100, 200_000),
            at(100, 199_800),
            at(100, 200_400),
            0,
        ),
        book(at(100, 200_200), at(100, 200_000), None, None, 0),
        book(at(100, 20_000), at(100, 19_998), None, None, 19_999),
        book(at(100, 199_800), at(100, 200_000), None, None, 200_000),
        book(at(100, 200_200), None, None, at(500, 200_000), 0),
        book(
            at(300, 200_400),
            at(100, 200_400),
            at(100, 199_600),
            at(150, 200_000),
            0,
        ),
        book(at(100, 200_200), at(50, 200_000), None, None, 200_000),
        book(
            at(100, 200_200),
            at(100, 200_000),
            at(100, 200_000),
            at(100, 200_000),
            0,
        ),
    ]
}

/// The worked book at a place, counted from 0; none past the end.
pub fn book_at(place: usize) -> Option<Worked>
    ensures { result ≡ slice_get worked place }
{
    books().get(place).copied()
}

// Shares of the buy, which is order 1, that are sent to venue 1 at a price.
fn bought(shares: u32, price: u32) -> Option<Ticket>
    ensures { result ≡ Some (record { order = 1; venue = 1; price = price; shares = shares; reported = false }) }
{
    Some(Ticket {
        order: 1,
        venue: 1,
        price,
        shares,
        reported: false,
    })
}

/// The ticket of the worked book at a place, where it has one: two of the books do.
pub fn ticket_at(place: usize) -> Option<Ticket>
    ensures { SentAt place result }
{
    match place {
        7 => bought(100, 200_000),
        8 => bought(150, 200_000),
        _ => None,
    }
}

/// How many books the table has; each has the outcome and the tickets that the table gives it, and its image means it.
pub fn worked_books_close() -> usize
    ensures books { result ≡ length books }
    ensures close { BooksClose }
    ensures route { BooksRoute }
    ensures imaged { BooksImaged }
{
    books().len()
}
