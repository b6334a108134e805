//! Laws of shares that are handed out in rank order, and of what is owed. Contracts stand on functions: what these
//! answer says nothing.
ghost use Rattle.routing.specs.Laws.{HandedOut, AheadFirst, WalkAllots, RowsHanded, NoneKeptAhead, OrderTied, QuoteTied, TiesFill, NoOtherFills, TiesRanked, TiesFew, OrderTicketed, QuoteTicketed, TicketsFit, NoneEmpty, TicketsSome, OneSideOwes, CloseTicketed, OwedWithin, QuotedTo, Counted, Beyond, TicketsTotal, TicketsFill, QuotesFirst};

use orders::OrderRow;
use ranking::Ranking;

/// Laws of every ranking of some entries: what each entry gets of shares that are handed out. It answers 0. docs/RULES.md, "Shares
/// in rank order".
pub fn allotment_laws<E, R: Ranking<E>>() -> u8
    ensures handed { HandedOut }
    ensures rank { AheadFirst }
    ensures allots { WalkAllots R.ahead }
{
    0
}

/// Laws of every ranking of the rows of a side: what each row gets, and that none ahead of it keeps any. It answers 0.
/// docs/RULES.md, "Shares in rank order".
pub fn row_laws<R: Ranking<OrderRow>>() -> u8
    ensures handed { RowsHanded R.ahead }
    ensures kept { NoneKeptAhead }
{
    0
}

/// Laws of tickets, and of what a side owes. It answers 0. docs/RULES.md, "Tickets" and "What is owed to outside
/// quotes".
pub fn ticket_laws() -> u8
    ensures orders { OrderTied }
    ensures quotes { QuoteTied }
    ensures fill { TiesFill }
    ensures no_other { NoOtherFills }
    ensures ranked { TiesRanked }
    ensures few { TiesFew }
    ensures each { TicketsFill }
    ensures quotes_first { QuotesFirst }
    ensures order_ticketed { OrderTicketed }
    ensures quote_ticketed { QuoteTicketed }
    ensures fit { TicketsFit }
    ensures none_empty { NoneEmpty }
    ensures some { TicketsSome }
    ensures one_side { OneSideOwes }
    ensures close { CloseTicketed }
    ensures within { OwedWithin }
    ensures quoted { QuotedTo }
    ensures counted { Counted }
    ensures beyond { Beyond }
    ensures all { TicketsTotal }
{
    0
}
