//! What the questions of a call ask, with their numbers. Contracts stand on functions: what this answers says nothing.
ghost use Rattle.engine.specs.Limits.{EngineLimits};
ghost use Rattle.engine.specs.Laws.{TableSizesFit, StagesFit, TimesFit, StartsFit, AcceptanceFits, MinimumsFit, MarketsFit, ReachesFit, RoomFits};

/// The limits of the engine, and what those questions ask that have numbers in them (RULES, "The questions of a call").
pub fn question_laws() -> u8
    ensures limits { EngineLimits }
    ensures sizes { TableSizesFit }
    ensures stages { StagesFit }
    ensures times { TimesFit }
    ensures starts { StartsFit }
    ensures acceptance { AcceptanceFits }
    ensures minimums { MinimumsFit }
    ensures markets { MarketsFit }
    ensures reaches { ReachesFit }
    ensures room { RoomFits }
{
    0
}
