//! Ways to rank entries.
ghost use Rattle.std.specs.Prelude.{◌≡◌, Bool, true, false};

/// A way to rank entries of the type `E`. Two entries of which neither is ahead of the other are level. Who
/// implements it owes proofs of the three laws (docs/RULES.md, "Rank order").
pub trait Ranking<E> {
    /// Whether the first entry goes ahead of the second.
    ghost ahead: { E → E → Bool };

    /// Whether `a` goes ahead of `b`.
    fn is_ahead(a: &E, b: &E) -> bool
        ensures { result ≡ ahead a.now b.now };

    /// Never are two entries ahead of each other, so one is ahead of the other or they are level.
    ghost apart: { (a b : E) → ahead a b ≡ true → ahead b a ≡ false };

    /// What is ahead of an entry is ahead of all that the entry is ahead of.
    ghost through: { (a b c : E) → ahead a b ≡ true → ahead b c ≡ true → ahead a c ≡ true };

    /// Entries that are level with one entry are level with each other.
    ghost level: { (a b c : E)
        → ahead a b ≡ false → ahead b a ≡ false
        → ahead b c ≡ false → ahead c b ≡ false
        → ahead a c ≡ false };
}
