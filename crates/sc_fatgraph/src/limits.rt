//! What a fatgraph may hold at most.

ghost use Rattle.std.specs.Prelude.{◌≡◌};

/// The sides of a fatgraph.
pub const MAX_SIDES: usize = 1_048_576;

/// The copies of the chain that a fatgraph is over.
pub const MAX_COPIES: u32 = 1_048_576;

/// The numbers of the limits.
pub fn numbers()
    ensures sides { MAX_SIDES ≡ 1048576 }
    ensures copies { MAX_COPIES ≡ 1048576 }
{}
