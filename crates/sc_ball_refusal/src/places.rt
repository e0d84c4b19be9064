//! How a text names the operations of a crossing.

ghost use Rattle.std.specs.Prelude.{◌≡◌};
ghost use Rattle.sc_ball_refusal.specs.Texts as texts;

use sc_crossing::CrossPlace;

/// The name of an operation.
pub(crate) fn place_name(place: CrossPlace) -> &'static [u8]
    ensures { result.now ≡ texts.place_name place }
{
    match place {
        CrossPlace::First => b"cross-first",
        CrossPlace::Second => b"cross-second",
        CrossPlace::Over => b"cross-over",
    }
}
