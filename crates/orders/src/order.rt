//! An order as a member enters it, in plain numbers, and what those numbers say. docs/RULES.md, "Orders and rows".
ghost use Rattle.std.specs.Prelude.{◌≡◌, is_some};

use market::{Side, entry_fits};
use std::error::Error;
use std::fmt;

/// An order as a member enters it. A member can enter any numbers; an order that is not well formed is refused (refusal 7).
#[repr(C)]
#[derive(Clone, Copy, Debug, PartialEq, Eq, Hash)]
pub struct Order {
    /// Its sequence number, which names it from then on: any but 0, once on the book.
    pub number: u32,
    /// The number of its side (`market::Side`): 1 to buy, 2 to sell.
    pub side: u32,
    /// The number of its class (`Class`): 0, 1 or 2.
    pub class: u32,
    /// Its limit in points, 20,000 to the dollar: a permitted price.
    pub price: u32,
    /// How many shares: at least 1, at most `market::MOST_SHARES`.
    pub shares: u32,
}

/// How an order is shown. Of one price the lower class ranks first.
#[derive(Clone, Copy, Debug, PartialEq, Eq, PartialOrd, Ord, Hash)]
pub enum Class {
    /// Displayed: class 0.
    Displayed = 0,
    /// The undisplayed part of a reserve order: class 1.
    Reserve = 1,
    /// Not displayed at all: class 2.
    Hidden = 2,
}

/// What `Class::try_from` answers to a number that no class has. An order of such a class is not well formed (refusal 7).
#[derive(Clone, Copy, Debug, PartialEq, Eq, Hash)]
pub struct UnknownClass(
    /// The number.
    pub u32,
);

impl fmt::Display for UnknownClass {
    ghost use Rattle.std.specs.Prelude.{Some};
    ghost use Rattle.orders.specs.Orders.{unknown_class_text};

    ghost output = { λ unknown. Some (unknown_class_text unknown.0) };

    fn fmt<W: fmt::Write>(&self, f: &mut fmt::Formatter<W>) -> fmt::Result {
        let number = self.0;
        write!(f, "no class of orders has number {number}")
    }
}

impl Error for UnknownClass {}

// The class of a number.
impl TryFrom<u32> for Class {
    type Error = UnknownClass;

    ghost use Rattle.std.specs.Prelude.{ok_or};
    ghost use Rattle.orders.specs.Orders.{class_numbered, unknown_class};

    ghost try_from_gives = { λ number result. result ≡ ok_or (class_numbered number) (unknown_class number) };

    fn try_from(number: u32) -> Result<Self, UnknownClass> {
        match number {
            0 => Ok(Class::Displayed),
            1 => Ok(Class::Reserve),
            2 => Ok(Class::Hidden),
            _ => Err(UnknownClass(number)),
        }
    }
}

// The number of a class.
impl From<Class> for u32 {
    ghost use Rattle.orders.specs.Orders.{class_number};

    ghost from_gives = { λ class number. number ≡ class_number class };

    fn from(class: Class) -> u32 {
        class as u32
    }
}

impl Order {
    ghost use Rattle.orders.specs.Orders.{well_formed, typed};

    /// The side and the class of an order; none where it is not well formed: its number is not 0, its side and its class have
    /// their numbers, its price is permitted, and it has 1 share to the most that one has. docs/RULES.md, "Orders and rows".
    pub fn well_formed(self) -> Option<(Side, Class)>
        ensures is { result ≡ typed self }
        ensures when { is_some result ≡ well_formed self }
    {
        if self.number == 0 || !entry_fits(self.price, self.shares) {
            return None;
        }
        let side = Side::try_from(self.side).ok()?;
        let class = Class::try_from(self.class).ok()?;
        Some((side, class))
    }
}
