//! What holds of every ranking. Contracts stand on functions: what these answer says nothing.
ghost use Rattle.ranking.specs.Laws.{Laws};

use crate::rank::Ranking;

/// There is one way at most to put entries into rank order, where no two are level, and two such entries may come in either order.
/// An entry goes behind those that it is not ahead of. Whatever comes one by one ends in rank order, a rearrangement of what came,
/// level ones as they came. What is left when an entry is taken out stands in rank order, with that one it is what was; and an entry
/// that is taken out where it was put leaves what was before (docs/RULES.md, "Rank order").
pub fn ranking_laws<E, R: Ranking<E>>() -> u8
    ensures { Laws R.ahead }
{
    0
}
