//! The engine's own state.
ghost use Rattle.std.specs.Prelude.{◌≡◌};
ghost use Rattle.engine.specs.States.{made};

use crate::stage::{Issue, Stage};

/// How many rows of each table are in use: the rows are lent by the caller, so they are counted here.
#[derive(Clone, Copy, Debug, Default, PartialEq, Eq)]
pub struct Used {
    /// Orders on the buys.
    pub buys: usize,
    /// Orders on the sells.
    pub sells: usize,
    /// Bids that the close found.
    pub bids: usize,
    /// Offers that the close found.
    pub offers: usize,
    /// Tickets of the cycle.
    pub tickets: usize,
}

/// The engine of one security: of which issue it is, and where its cycle stands. It is no plain value: there is one engine for a
/// security, so it is not `Copy`.
#[derive(Clone, Debug, Drop, PartialEq, Eq)]
pub struct Engine {
    pub(crate) issue: Issue,
    pub(crate) stage: Stage,
    // The last accepted time, and the end of the last cycle.
    pub(crate) last_time: Option<u32>,
    pub(crate) last_end: Option<u32>,
    pub(crate) used: Used,
    // The price of the last match, until the next begin.
    pub(crate) fixed: Option<u32>,
}

impl Engine {
    /// An engine for an issue, open, with nothing in its tables.
    pub fn new(issue: Issue) -> Engine
        ensures { result ≡ made issue }
    {
        Engine {
            issue,
            stage: Stage::Open,
            last_time: None,
            last_end: None,
            used: Used::default(),
            fixed: None,
        }
    }

    /// Where its cycle stands.
    pub fn stage(&self) -> Stage
        ensures { result ≡ self.now.stage }
    {
        self.stage
    }

    /// The price, in points, at which the last match was made; none from a begin until its cycle's match.
    pub fn fixed(&self) -> Option<u32>
        ensures { result ≡ self.now.fixed }
    {
        self.fixed
    }

    /// How many rows of each table are in use.
    pub fn used(&self) -> Used
        ensures { result ≡ self.now.used }
    {
        self.used
    }
}
