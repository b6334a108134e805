//! A protected quote of an outside venue. All zeros where a row for one is empty.
ghost use Rattle.std.specs.Prelude.{◌≡◌};
ghost use Rattle.market.specs.Markets.{no_quote};

/// A quote of an outside venue, as a row of a quote table (docs/RULES.md, "Sides and quotes").
#[repr(C)]
#[derive(Clone, Copy, Debug, Default, PartialEq, Eq, Hash)]
pub struct Quote {
    /// In points.
    pub price: u32,
    /// How many shares it is for.
    pub shares: u32,
    /// The number of its venue, from 1.
    pub venue: u32,
}

impl Quote {
    /// A row with nothing in it, all zeros. The default has a name here, as empty rows of orders and tickets have theirs.
    pub fn none() -> Quote
        ensures { result ≡ no_quote }
    {
        Quote::default()
    }
}
