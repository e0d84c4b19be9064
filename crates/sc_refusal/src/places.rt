//! How a text names the place of an operation.

ghost use Rattle.std.specs.Prelude.{◌≡◌, ◌≤◌};
ghost use Rattle.sc_refusal.specs.Places as named;

use sc_rows::Place;
use sc_weight::Level;

/// The name of a level.
pub(crate) fn level_name(level: Level) -> &'static [u8]
    ensures { result.now ≡ named.level_name level }
{
    match level {
        Level::Bulk => b"bulk",
        Level::Fine => b"fine",
    }
}

pub(crate) fn place_name(place: Place) -> &'static [u8]
    ensures { result.now ≡ named.place_name place }
{
    match place {
        Place::TurnPrice { .. } => b"turn-price",
        Place::StepPrice { .. } => b"step-price",
        Place::WalkSum { .. } => b"walk-sum",
        Place::AlongMul => b"along-mul",
        Place::AlongAdd => b"along-add",
        Place::ValueMul => b"value-mul",
        Place::ValueAdd => b"value-add",
        Place::RowLeft => b"row-left",
        Place::RowRight => b"row-right",
        Place::RowMinus => b"row-minus",
        Place::RowScale => b"row-scale",
        Place::GapMul { .. } => b"gap-mul",
        Place::GapAdd { .. } => b"gap-add",
        Place::GapMinus { .. } => b"gap-minus",
        Place::PriceLeft { .. } => b"price-left",
        Place::PriceRight { .. } => b"price-right",
        Place::PriceAdd { .. } => b"price-add",
        Place::PriceScale { .. } => b"price-scale",
        Place::LiftTurn => b"lift-turn",
        Place::LiftMul => b"lift-mul",
        Place::LiftAdd => b"lift-add",
        Place::LiftBulk => b"lift-bulk",
        Place::LiftSum => b"lift-sum",
        Place::LiftSize => b"lift-size",
    }
}

/// The level of the prices that a place speaks of, where it speaks of those of one level.
pub(crate) fn level_of(place: Place) -> Option<Level>
    ensures { result ≡ named.level_of place }
{
    match place {
        Place::TurnPrice { level }
        | Place::StepPrice { level }
        | Place::WalkSum { level }
        | Place::GapMul { level }
        | Place::GapAdd { level }
        | Place::GapMinus { level }
        | Place::PriceLeft { level }
        | Place::PriceRight { level }
        | Place::PriceAdd { level }
        | Place::PriceScale { level } => Some(level),
        _ => None,
    }
}

/// How many indices a place has.
pub(crate) fn index_count(place: Place) -> usize
    ensures count { result ≡ named.index_count place }
    ensures few { result ≤ 2 }
{
    match place {
        Place::StepPrice { .. }
        | Place::AlongMul
        | Place::AlongAdd
        | Place::ValueMul
        | Place::ValueAdd
        | Place::RowLeft
        | Place::RowRight
        | Place::RowMinus
        | Place::LiftTurn => 2,
        Place::TurnPrice { .. }
        | Place::RowScale
        | Place::GapMul { .. }
        | Place::GapAdd { .. }
        | Place::PriceLeft { .. }
        | Place::PriceRight { .. }
        | Place::PriceAdd { .. }
        | Place::LiftBulk
        | Place::LiftSum
        | Place::LiftSize => 1,
        Place::WalkSum { .. }
        | Place::GapMinus { .. }
        | Place::PriceScale { .. }
        | Place::LiftMul
        | Place::LiftAdd => 0,
    }
}
