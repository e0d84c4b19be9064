//! The next direction between two neighbours.

ghost use Rattle.std.specs.Prelude.{◌≡◌, ◌≢◌, ◌↔◌, ◌<◌, ℕ, pos, ◌≤ℤ◌, unsigned_abs, IsTrue, IfOk, IfErr, OnOk};
ghost use Rattle.sc_theory.specs.Chains.{weighted_length};
ghost use Rattle.sc_fraction.specs.declared.frac.Frac.{Frac as Fraction};
ghost use Rattle.sc_fraction.specs.Frac.{numerator, IsDifference, IsRatio};
ghost use Rattle.sc_certificate.specs.Sizes.{IsSmallList};
ghost use Rattle.sc_cone.specs.Directions.{IsIn, IsPrimitive, TurnsLeft, IsCombination};
ghost use Rattle.sc_cone.specs.Searches.{IsGap, IsInside, IsNext};
ghost use Rattle.sc_crossing.specs.declared.fault.NextFault.TheVariants as next_faults;
ghost use Rattle.sc_crossing.specs.Lengths.{IsLight};
ghost use Rattle.sc_crossing.specs.Neighbours.{reached_of, direction_of};
ghost use Rattle.sc_crossing.specs.Forms.{HasDifference, HasRatio, IsNextFault};
ghost use Rattle.sc_crossing.specs.inside.Forms.{IsCrossing, IsCrossFault};

use crate::chains::check_chain;
use crate::fault::{CrossPlace, NextFault};
use crate::form::{Form, form_of};
use crate::reached::Reached;
use sc_certificate::PriceList;
use sc_chain::Chain;
use sc_chain::limits::MAX_LENGTH;
use sc_cone::{Direction, Quadrant};
use sc_fraction::Frac;
use sc_whole::{gcd, quotient};

/// A direction of any size.
#[derive(Clone, Copy)]
struct FarDirection {
    s: i128,
    t: i128,
}

/// Whether a direction is no end of its quadrant.
fn is_inside(direction: Direction) -> bool
    ensures { IsTrue result ↔ IsInside direction }
{
    direction.s != 0 && direction.t != 0
}

/// Whether neither of two directions is an end of its quadrant.
fn are_inside(from: Direction, to: Direction) -> bool
    ensures { IsTrue result ↔ (IsInside from × IsInside to) }
{
    is_inside(from) && is_inside(to)
}

/// What every price list keeps.
fn check_list(list: &PriceList)
    ensures { IsSmallList list.now }
{
    // For its contract alone, as in `check_chain`.
    let _scale = list.scale();
}

/// The difference of two fractions, which is refused as the operation at a place of the crossing.
fn difference(place: CrossPlace, x: &Frac, y: &Frac) -> Result<Frac, NextFault>
    ensures value { IfOk result (IsDifference x.now y.now) }
    ensures fits { OnOk result (HasDifference x.now y.now) }
    ensures refused { IfErr result (λ fault.
        (fault ≡ next_faults.Cross place x.now y.now) × ¬ HasDifference x.now y.now) }
{
    match x.minus(y) {
        Ok(difference) => Ok(difference),
        Err(_) => Err(NextFault::Cross {
            place,
            x: *x,
            y: *y,
        }),
    }
}

/// The ratio of two fractions, which is refused as the last operation of the crossing.
fn ratio(x: &Frac, y: &Frac) -> Result<Frac, NextFault>
    requires { numerator y.now ≢ pos 0 }
    ensures value { IfOk result (IsRatio x.now y.now) }
    ensures refused { IfErr result (λ fault.
        (fault ≡ next_faults.Cross CrossPlace.Over x.now y.now) × ¬ HasRatio x.now y.now) }
{
    match x.over(y) {
        Ok(ratio) => Ok(ratio),
        Err(_) => Err(NextFault::Cross {
            place: CrossPlace::Over,
            x: *x,
            y: *y,
        }),
    }
}

/// Where two forms cross, as a quotient of directions, of `s` over the size of `t`.
fn crossing(form: &Form, other: &Form) -> Result<Frac, NextFault>
    requires { (more : Fraction) → IsDifference form.now.first other.now.first more → numerator more ≢ pos 0 }
    ensures crossing { IfOk result (IsCrossing form.now other.now) }
    ensures refused { IfErr result (IsCrossFault form.now other.now) }
{
    let more_first = difference(CrossPlace::First, &form.first, &other.first)?;
    let more_second = difference(CrossPlace::Second, &other.second, &form.second)?;
    let quotient = ratio(&more_second, &more_first)?;
    Ok(quotient)
}

/// The direction of a quadrant with these sizes of its coordinates.
fn direction_in(quadrant: Quadrant, s: i128, t_size: i128) -> FarDirection
    requires first { pos 0 ≤ℤ s }
    requires second { pos 0 ≤ℤ t_size }
    ensures within { IsIn quadrant (direction_of result) }
    ensures first { result.s ≡ s }
    ensures second { unsigned_abs result.t ≡ unsigned_abs t_size }
{
    FarDirection {
        s,
        t: match quadrant {
            Quadrant::Lower => -t_size,
            Quadrant::Upper => t_size,
        },
    }
}

/// The direction at which the lists of two neighbours inside a quadrant have one value.
fn crossing_direction(
    quadrant: Quadrant,
    first: &Chain,
    second: &Chain,
    from: &Reached,
    to: &Reached,
) -> Result<FarDirection, NextFault>
    requires gap { IsGap quadrant first.now second.now (reached_of from.now) (reached_of to.now) }
    requires from { IsInside from.now.direction }
    requires to { IsInside to.now.direction }
    ensures next { IfOk result (λ x.
        IsNext quadrant first.now second.now (reached_of from.now) (reached_of to.now) (direction_of x)) }
    ensures refused { IfErr result (
        IsNextFault quadrant first.now second.now (reached_of from.now) (reached_of to.now)) }
{
    check_chain(first);
    check_chain(second);
    check_list(&from.list);
    check_list(&to.list);
    let form = form_of(first, second, &from.list);
    let other = form_of(first, second, &to.list);
    let quotient = crossing(&form, &other)?;
    Ok(direction_in(quadrant, quotient.num(), quotient.den()))
}

/// The primitive direction of the sum of two.
fn primitive_sum(from: Direction, to: Direction) -> FarDirection
    requires { TurnsLeft from to }
    ensures primitive { IsPrimitive (direction_of result) }
    ensures sum { (k : ℕ) × (0 < k) × IsCombination k 1 1 from to (direction_of result) }
{
    let s = i128::from(from.s) + i128::from(to.s);
    let t = i128::from(from.t) + i128::from(to.t);
    let divisor = gcd(s, t);
    FarDirection {
        s: quotient(s, divisor),
        t: quotient(t, divisor),
    }
}

/// The next direction, be its chain too long or not.
fn far_next(
    quadrant: Quadrant,
    first: &Chain,
    second: &Chain,
    from: &Reached,
    to: &Reached,
) -> Result<FarDirection, NextFault>
    requires { IsGap quadrant first.now second.now (reached_of from.now) (reached_of to.now) }
    ensures next { IfOk result (λ x.
        IsNext quadrant first.now second.now (reached_of from.now) (reached_of to.now) (direction_of x)) }
    ensures refused { IfErr result (
        IsNextFault quadrant first.now second.now (reached_of from.now) (reached_of to.now)) }
{
    if are_inside(from.direction, to.direction) {
        crossing_direction(quadrant, first, second, from, to)
    } else {
        Ok(primitive_sum(from.direction, to.direction))
    }
}

/// Whether the chain of a direction is no longer than a chain may be.
fn is_light(first: &Chain, second: &Chain, direction: FarDirection) -> bool
    requires first { 0 < weighted_length first.now }
    requires second { 0 < weighted_length second.now }
    ensures { IsTrue result ↔ IsLight first.now second.now (direction_of direction) }
{
    let limit = u128::from(MAX_LENGTH);
    let (s, t) = (direction.s.unsigned_abs(), direction.t.unsigned_abs());
    s <= limit
        && t <= limit
        && s * u128::from(first.length()) + t * u128::from(second.length()) <= limit
}

/// The direction, unless its chain is too long.
fn light_direction(
    first: &Chain,
    second: &Chain,
    direction: FarDirection,
) -> Result<Direction, NextFault>
    requires first { 0 < weighted_length first.now }
    requires second { 0 < weighted_length second.now }
    ensures direction { IfOk result (λ x. x ≡ direction_of direction) }
    ensures light { IfOk result (IsLight first.now second.now) }
    ensures heavy { IfErr result (λ fault. (fault ≡ next_faults.Length direction.s direction.t)
        × ¬ IsLight first.now second.now (direction_of direction)) }
{
    if is_light(first, second, direction) {
        Ok(Direction {
            s: direction.s as i64,
            t: direction.t as i64,
        })
    } else {
        Err(NextFault::Length {
            s: direction.s,
            t: direction.t,
        })
    }
}

/// The next direction between two neighbours of a quadrant whose lists are each not tight at the other's direction:
/// where both lie inside the quadrant, the one at which their lists have one value; else the primitive direction of
/// their sum. Its chain is no longer than a chain may be. A fault tells the operation of the crossing that passes 128
/// bits, or the next direction where its chain is too long.
pub fn next_direction(
    quadrant: Quadrant,
    first: &Chain,
    second: &Chain,
    from: &Reached,
    to: &Reached,
) -> Result<Direction, NextFault>
    requires { IsGap quadrant first.now second.now (reached_of from.now) (reached_of to.now) }
    ensures next { IfOk result (IsNext quadrant first.now second.now (reached_of from.now) (reached_of to.now)) }
    ensures light { IfOk result (IsLight first.now second.now) }
    ensures refused { IfErr result (
        IsNextFault quadrant first.now second.now (reached_of from.now) (reached_of to.now)) }
{
    check_chain(first);
    check_chain(second);
    let far = far_next(quadrant, first, second, from, to)?;
    let direction = light_direction(first, second, far)?;
    Ok(direction)
}
