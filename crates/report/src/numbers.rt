//! Counts and prices as market operations reads them.
ghost use Rattle.std.specs.Prelude.{◌≡◌};
ghost use Rattle.report.specs.Numbers.{grouped_width};

use market::DOLLAR;
use std::fmt;

/// Shares, or any count, in groups of three digits with a comma between them.
#[derive(Clone, Copy, Debug, PartialEq, Eq)]
pub struct Grouped(pub u64);

#[tactic(auto, using(crate::proofs::Filled::filled, crate::proofs::Filled::in_millions, crate::proofs::Filled::in_billions))]
impl fmt::Display for Grouped {
    ghost use Rattle.std.specs.Prelude.{Some};
    ghost use Rattle.report.specs.Numbers.{grouped_text};

    ghost output = { λ count. Some (grouped_text count.0) };

    fn fmt<W: fmt::Write>(&self, f: &mut fmt::Formatter<W>) -> fmt::Result {
        let thousands = self.0 / 1_000;
        let millions = thousands / 1_000;
        let billions = millions / 1_000;
        let (millions, thousands, ones) = (millions % 1_000, thousands % 1_000, self.0 % 1_000);
        if billions > 0 {
            write!(f, "{billions},{millions:03},{thousands:03},{ones:03}")
        } else if millions > 0 {
            write!(f, "{millions},{thousands:03},{ones:03}")
        } else if thousands > 0 {
            write!(f, "{thousands},{ones:03}")
        } else {
            write!(f, "{ones}")
        }
    }
}

/// A price in dollars with five digits after the point, from its points.
#[derive(Clone, Copy, Debug, PartialEq, Eq)]
pub struct Dollars(pub u32);

#[tactic(auto, using(crate::proofs::Filled::filled))]
impl fmt::Display for Dollars {
    ghost use Rattle.std.specs.Prelude.{Some};
    ghost use Rattle.report.specs.Numbers.{dollars_text};

    ghost output = { λ price. Some (dollars_text price.0) };

    fn fmt<W: fmt::Write>(&self, f: &mut fmt::Formatter<W>) -> fmt::Result {
        let whole = self.0 / DOLLAR;
        let part = self.0 % DOLLAR * 5;
        write!(f, "${whole}.{part:05}")
    }
}

// How many characters a count takes in groups of three digits; 14 for ten billion and more.
#[tactic(auto, using(crate::proofs::Widths::width_is))]
fn grouped_width(n: u64) -> usize
    ensures { result ≡ grouped_width n }
{
    let tens = n.max(1).ilog10() as usize;
    (tens + 1 + tens / 3).min(14)
}

/// A count, as `Grouped` writes it, at the right end of a column of `WIDTH` characters; blanks fill what is left of it.
#[derive(Clone, Copy, Debug, PartialEq, Eq)]
pub struct Column<const WIDTH: usize>(pub u64);

#[tactic(auto, using(crate::proofs::Filled::blanked))]
impl<const WIDTH: usize> fmt::Display for Column<WIDTH> {
    ghost use Rattle.std.specs.Prelude.{Some};
    ghost use Rattle.report.specs.Numbers.{column_text};

    ghost output = { λ count. Some (column_text WIDTH count.0) };

    fn fmt<W: fmt::Write>(&self, f: &mut fmt::Formatter<W>) -> fmt::Result {
        let blanks = WIDTH.saturating_sub(grouped_width(self.0));
        let grouped = Grouped(self.0);
        write!(f, "{:blanks$}{grouped}", "")
    }
}
