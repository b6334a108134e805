//! A table with no free row refuses an entry.
ghost use Rattle.std.specs.Prelude.{Some};
ghost use Rattle.ranking.specs.Texts.{full_text};

use std::error::Error;
use std::fmt;

/// The refusal of an entry by a table that has no free row. It has no number: who inserts answers for it.
#[derive(Clone, Copy, Debug, Default, PartialEq, Eq, Hash)]
pub struct Full;

impl fmt::Display for Full {
    ghost output = { λ full. Some full_text };

    fn fmt<W: fmt::Write>(&self, f: &mut fmt::Formatter<W>) -> fmt::Result {
        write!(f, "no row is free")
    }
}

impl Error for Full {}
