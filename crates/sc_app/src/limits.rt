//! The most bytes that a command reads, how many pivots it may make, and the greatest seed.

ghost use Rattle.std.specs.Prelude.{◌≡◌};

/// The bytes of the text of a surface, a certificate or a fan.
pub const MAX_TEXT_BYTES: usize = 67_108_864;

/// The bytes of a chain text, and of a text of two chains.
pub const MAX_CHAIN_BYTES: usize = 65_536;

/// The pivots that `scl` may make, and `ball` for each direction, where the words name no number.
pub const DEFAULT_PIVOTS: u32 = 20_000;

/// The greatest seed of `gen`: 2^64 - 1.
pub const MAX_SEED: u64 = 18_446_744_073_709_551_615;

/// The numbers of the limits.
pub fn numbers()
    ensures text_bytes { MAX_TEXT_BYTES ≡ 67108864 }
    ensures chain_bytes { MAX_CHAIN_BYTES ≡ 65536 }
    ensures default_pivots { DEFAULT_PIVOTS ≡ 20000 }
    ensures seed { MAX_SEED ≡ 18446744073709551615 }
{}
