//! The unit ball in the plane of two chains.

ghost use Rattle.std.specs.Prelude.{◌≡◌, ◌+◌, ◌<◌, ◌≤◌, [], ◌∷◌, ◌++◌, length, map, IfOk, IfErr, IfSome};
ghost use Rattle.sc_theory.specs.Chains.{positions, IsBalanced};
ghost use Rattle.sc_chain.specs.declared.limits.TheConstants.{MAX_WORDS, MAX_POSITIONS};
ghost use Rattle.sc_text.specs.Surfaces.{IsChainInRange};
ghost use Rattle.sc_cone.specs.declared.Quadrant.TheVariants.{Lower, Upper};
ghost use Rattle.sc_cone.specs.Fans.{IsFan};
ghost use Rattle.sc_fan.specs.Fans.{IsFanInRange};
ghost use Rattle.sc_fan.specs.FanRead.{fan_said, plane_fan};
ghost use Rattle.sc_ball.specs.inside.Searched.{SpanPlane};
ghost use Rattle.sc_ball.specs.Faults.{IsBallFault};
ghost use Rattle.sc_ball.specs.inside.Halves.{IsHalfFan};

use crate::arcs::{Half, half_of};
use crate::fault::BallFault;
use crate::searching::search;
use sc_chain::Chain;
use sc_cone::Quadrant;
use sc_fan::Fan;
use std::alloc::{AllocError, Global};

/// The half of the fan in a quadrant.
fn half(
    alloc: Global,
    quadrant: Quadrant,
    first: &Chain,
    second: &Chain,
    budget: u32,
) -> Result<Half, BallFault>
    requires plane { SpanPlane first.now second.now }
    requires budget { 0 < budget }
    ensures half { IfOk result (IsHalfFan quadrant first.now second.now) }
    ensures stopped { IfErr result (IsBallFault first.now second.now budget) }
{
    let entries = search(alloc, quadrant, first, second, budget)?;
    let half = half_of(alloc, first, second, entries)?;
    Ok(half)
}

/// The fan of two halves, which meet in one corner.
fn joined(
    alloc: Global,
    first: &Chain,
    second: &Chain,
    lower: Half,
    upper: Half,
) -> Result<Fan, AllocError>
    requires lower { IsHalfFan Lower first.now second.now lower }
    requires upper { IsHalfFan Upper first.now second.now upper }
    requires words { length first.now + length second.now ≤ MAX_WORDS }
    requires positions { positions first.now + positions second.now ≤ MAX_POSITIONS }
    ensures first { IfOk result (λ f. f.first ≡ first.now) }
    ensures second { IfOk result (λ f. f.second ≡ second.now) }
    ensures fan { IfOk result (λ f. IsFan (plane_fan f)) }
    ensures readable { IsChainInRange first.now → IsChainInRange second.now
        → IfOk result (λ f. IsFanInRange (fan_said f)) }
{
    let Half {
        mut corners,
        mut edges,
    } = lower;
    let Half {
        corners: mut upper_corners,
        edges: mut upper_edges,
    } = upper;
    corners.pop();
    corners.append(&mut upper_corners)?;
    edges.append(&mut upper_edges)?;
    Ok(Fan {
        first: first.copy(alloc)?,
        second: second.copy(alloc)?,
        corners,
        edges,
    })
}

/// The fan of two balanced chains: the corners of the unit ball in the half of their plane where the first chain isn't
/// taken a negative number of times, from 0, -1 through 1, 0 to 0, 1, each with its value, and a price list for each
/// edge. Together the two have no more words and positions than a chain may have. Each direction that the search comes
/// to is solved by at most `budget` pivots.
pub fn ball(alloc: Global, first: &Chain, second: &Chain, budget: u32) -> Result<Fan, BallFault>
    requires first { IsBalanced first.now }
    requires second { IsBalanced second.now }
    requires words { length first.now + length second.now ≤ MAX_WORDS }
    requires positions { positions first.now + positions second.now ≤ MAX_POSITIONS }
    requires budget { 0 < budget }

    // The fan is that of the two chains, which fixes its corners.
    ensures first { IfOk result (λ f. f.first ≡ first.now) }
    ensures second { IfOk result (λ f. f.second ≡ second.now) }
    ensures fan { IfOk result (λ f. IsFan (plane_fan f)) }

    // Its text is one that is read.
    ensures readable { IsChainInRange first.now → IsChainInRange second.now
        → IfOk result (λ f. IsFanInRange (fan_said f)) }

    // What stops the search is shown by the search itself.
    ensures stopped { IfErr result (IsBallFault first.now second.now budget) }
{
    let lower = half(alloc, Quadrant::Lower, first, second, budget)?;
    let upper = half(alloc, Quadrant::Upper, first, second, budget)?;
    let fan = joined(alloc, first, second, lower, upper)?;
    Ok(fan)
}
