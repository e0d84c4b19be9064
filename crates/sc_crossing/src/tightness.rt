//! Whether a price list is tight at a direction.

ghost use Rattle.std.specs.Prelude.{◌≡◌, ◌↔◌, IsTrue};
ghost use Rattle.sc_fraction.specs.Frac.{numerator, denominator};
ghost use Rattle.sc_cone.specs.declared.Quadrant.{Quadrant};
ghost use Rattle.sc_cone.specs.Cones.{chain_of};
ghost use Rattle.sc_cone.specs.Values.{IsValueOf, IsTightAt, list_num};
ghost use Rattle.sc_crossing.specs.Lengths.{IsLight};

use crate::numbers::form_number;
use sc_certificate::PriceList;
use sc_chain::Chain;
use sc_cone::Direction;
use sc_fraction::{Frac, compare_ratios};
use std::cmp::Ordering;

/// The value of a list at a direction, by the unit of 4 times the scale.
fn list_number(first: &Chain, second: &Chain, list: &PriceList, direction: Direction) -> i128
    requires { IsLight first.now second.now direction }
    ensures { (q : Quadrant) → result ≡ list_num (chain_of q first.now second.now direction) list.now }
{
    i128::from(direction.s.unsigned_abs()) * form_number(first, list, 0)
        + i128::from(direction.t.unsigned_abs()) * form_number(second, list, first.words())
}

/// Whether a price list is tight at a direction of which the value is known. The list's prices of words are in the
/// order of the first chain's words, then the second's; the direction's chain is no longer than a chain may be.
pub fn is_tight_at(
    first: &Chain,
    second: &Chain,
    list: &PriceList,
    direction: Direction,
    value: &Frac,
) -> bool
    requires { IsLight first.now second.now direction }
    ensures { (q : Quadrant)
        → IsValueOf (chain_of q first.now second.now direction) (numerator value.now) (denominator value.now)
        → (IsTrue result ↔ IsTightAt q first.now second.now list.now direction) }
{
    let number = list_number(first, second, list, direction);
    compare_ratios(number, 4 * list.scale(), value.num(), value.den()) == Ordering::Equal
}
