//! Laws of the price that hold of every book. Contracts stand on functions: what these answer says nothing.
ghost use Rattle.pricing.specs.Limits.{PriceLimits};
ghost use Rattle.pricing.specs.Laws.{ClearingCountsMost, AlwaysACandidate, OnePrice, PriceClears, NothingExactly, OneOutcome, MidpointWhole, OnlyPrices, ReferenceIs, TouchingIs, TouchingParts, CrossedIs, CountingIs, LadderEnds};

/// The laws of the price, as one promise. It answers 0 always, and nothing calls it.
pub fn price_laws() -> u8
    ensures most { ClearingCountsMost }
    ensures candidate { AlwaysACandidate }
    ensures price { OnePrice }
    ensures clears { PriceClears }
    ensures nothing { NothingExactly }
    ensures outcome { OneOutcome }
    ensures midpoint { MidpointWhole }
    ensures only { OnlyPrices }
    ensures reference { ReferenceIs }
    ensures touching { TouchingIs }
    ensures parts { TouchingParts }
    ensures crossed { CrossedIs }
    ensures counting { CountingIs }
    ensures ladder { LadderEnds }
    ensures limits { PriceLimits }
{
    0
}
