//! The stages of a cycle, each with what it needs.
ghost use Rattle.std.specs.Prelude.{◌≡◌};
ghost use Rattle.engine.specs.Answers.{stage_number};
ghost use Rattle.engine.specs.Stages.{is_open, is_acceptance, is_satisfaction, is_matched};

/// The stage of a cycle.
#[derive(Clone, Copy, Debug, PartialEq, Eq)]
pub enum Stage {
    /// No cycle runs: one may begin.
    Open,
    /// Orders are taken; it may be closed at this time or later.
    Acceptance { closes: u32 },
    /// A price is fixed. Tickets may be reported; from the deadline on the match may come without them.
    Satisfaction { price: u32, deadline: u32 },
    /// The close fixed no price, or both sides are executed. Tickets may still be reported.
    Matched,
}

/// What kind of issue is traded; it settles the minimum size of a start order.
#[derive(Clone, Copy, Debug, PartialEq, Eq)]
pub enum Issue {
    /// The minimum goes by the price, in seven steps.
    Ordinary,
    /// One minimum at every price.
    Special,
}

// The number of a stage, in the order of a cycle.
impl From<Stage> for u32 {
    ghost from_gives = { λ stage number. number ≡ stage_number stage };

    fn from(stage: Stage) -> u32 {
        match stage {
            Stage::Open => 0,
            Stage::Acceptance { .. } => 1,
            Stage::Satisfaction { .. } => 2,
            Stage::Matched => 3,
        }
    }
}

impl Stage {
    /// No cycle runs.
    pub fn is_open(self) -> bool
        ensures { result ≡ is_open self }
    {
        matches!(self, Stage::Open)
    }

    /// Orders are taken.
    pub fn is_acceptance(self) -> bool
        ensures { result ≡ is_acceptance self }
    {
        matches!(self, Stage::Acceptance { .. })
    }

    /// A price is fixed, and tickets are out.
    pub fn is_satisfaction(self) -> bool
        ensures { result ≡ is_satisfaction self }
    {
        matches!(self, Stage::Satisfaction { .. })
    }

    /// The cycle is matched, or had no price.
    pub fn is_matched(self) -> bool
        ensures { result ≡ is_matched self }
    {
        matches!(self, Stage::Matched)
    }
}
