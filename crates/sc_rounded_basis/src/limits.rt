//! How much is kept and looked at. All of it but the first is free: other numbers make other advice, which is no less
//! true.

ghost use Rattle.std.specs.Prelude.{◌≡◌};

/// The polygons that a pool knows, at most, and with it those of a list of advice.
pub const MAX_POLYGONS: usize = 20_000;

/// The numbers of the limits.
pub fn numbers()
    ensures { MAX_POLYGONS ≡ 20000 }
{}

/// The polygons whose leaving rows are looked at before one of them enters.
pub(crate) const CANDIDATES: usize = 12;

/// The exchanges that are held back before the inverse has them.
pub(crate) const HELD_EXCHANGES: usize = 6;
