//! Laws of the rows that hold whatever they hold. Contracts stand on functions: what these answer says nothing.
ghost use Rattle.orders.specs.Laws.{ClassesNumbered, OrdersFormed, OrdersRank, EnteredWhole, StaysWhole, StaysMoved, InOrder, HereGains, OutGains};

/// Laws of orders, of how they rank and of what becomes of their shares. It answers 0. docs/RULES.md, "Rank order" and "Orders and
/// rows".
pub fn order_laws() -> u8
    ensures classes { ClassesNumbered }
    ensures formed { OrdersFormed }
    ensures ranks { OrdersRank }
    ensures entered { EnteredWhole }
    ensures whole { StaysWhole }
    ensures moved { StaysMoved }
    ensures order { InOrder }
    ensures here { HereGains }
    ensures out { OutGains }
{
    0
}
