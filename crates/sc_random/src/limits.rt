//! How long a drawn word may be.

ghost use Rattle.std.specs.Prelude.{◌≡◌};

/// The letters of a drawn word: then the chain of two commutators has at most 64 positions.
pub const MAX_LETTERS: u32 = 8;

/// The number of the limit.
pub fn numbers()
    ensures letters { MAX_LETTERS ≡ 8 }
{}
