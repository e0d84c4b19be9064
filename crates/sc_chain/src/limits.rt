//! What a chain may hold at most.

ghost use Rattle.std.specs.Prelude.{◌≡◌};

pub use sc_words::limits::{COEFFICIENT_DIGITS, GENERATORS, MAX_COEFFICIENT};

/// The words of a chain.
pub const MAX_WORDS: usize = 32;

/// The positions of a chain: the letters of all its words.
pub const MAX_POSITIONS: usize = 64;

/// The weighted length of a chain: the sum of weight times number of letters.
pub const MAX_LENGTH: u64 = 1_048_576;

/// The numbers of the limits.
pub fn numbers()
    ensures words { MAX_WORDS ≡ 32 }
    ensures positions { MAX_POSITIONS ≡ 64 }
    ensures length { MAX_LENGTH ≡ 1048576 }
{}
