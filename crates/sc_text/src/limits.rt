//! The ranges of the numbers in a text, and how much a text may hold.

ghost use Rattle.std.specs.Prelude.{◌≡◌, pos};

use sc_chain::limits::{GENERATORS, MAX_POSITIONS, MAX_WORDS};

/// The weight of a word, at least 1.
pub const MAX_WEIGHT: u32 = 1000;

/// The copies of a surface, at least 1.
pub const MAX_COPIES: u32 = 1_048_576;

/// The sides of a surface.
pub const MAX_SIDES: u32 = 1_048_576;

/// The label of a side.
pub const MAX_LABEL: u32 = 63;

/// The mate and the next of a side.
pub const MAX_SIDE: u32 = 1_048_575;

/// The numerator and the denominator of a value.
pub const MAX_VALUE: u32 = 2_097_152;

/// The scale of a price list, and the size of a price: 2^90 - 1.
pub const MAX_PRICE: i128 = 1_237_940_039_285_380_274_899_124_223;

/// The size of an entry of a distance table: 2^100 - 1.
pub const MAX_ENTRY: i128 = 1_267_650_600_228_229_401_496_703_205_375;

/// The pivots of a journal.
pub const MAX_PIVOTS: u32 = 50_000;

/// How much a text may hold: the limits that the form of a text takes.
#[derive(Clone, Copy, Debug)]
pub struct Limits {
    /// The words of a chain.
    pub words: u32,
    /// The letters that they have together.
    pub positions: usize,
    /// The generators of their letters, at most as many as letters are spelled for.
    pub generators: u8,
    /// The weight of a word.
    pub weight: u32,
    /// The copies of a surface.
    pub copies: u32,
    /// Its sides.
    pub sides: u32,
    /// The label of a side.
    pub label: u32,
    /// The mate and the next of a side.
    pub side: u32,
    /// The pivots of a journal.
    pub pivots: u32,
}

/// The limits of the texts of version 1.
pub const VERSION_1: Limits = Limits {
    words: MAX_WORDS as u32,
    positions: MAX_POSITIONS,
    generators: GENERATORS,
    weight: MAX_WEIGHT,
    copies: MAX_COPIES,
    sides: MAX_SIDES,
    label: MAX_LABEL,
    side: MAX_SIDE,
    pivots: MAX_PIVOTS,
};

/// The numbers of the limits.
pub fn numbers()
    ensures weight { MAX_WEIGHT ≡ 1000 }
    ensures copies { MAX_COPIES ≡ 1048576 }
    ensures sides { MAX_SIDES ≡ 1048576 }
    ensures label { MAX_LABEL ≡ 63 }
    ensures side { MAX_SIDE ≡ 1048575 }
    ensures value { MAX_VALUE ≡ 2097152 }
    ensures price { MAX_PRICE ≡ pos 1237940039285380274899124223 }
    ensures entry { MAX_ENTRY ≡ pos 1267650600228229401496703205375 }
    ensures pivots { MAX_PIVOTS ≡ 50000 }
{}
