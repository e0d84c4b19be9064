//! Directions that are solved.

ghost use Rattle.std.specs.Prelude.{◌≡◌, ◌<◌, IfOk, IfErr};
ghost use Rattle.sc_fatgraph.specs.Surfaces.{IsSmallFatgraph};
ghost use Rattle.sc_certificate.specs.Sizes.{IsSmallList};
ghost use Rattle.sc_chain.specs.Faults.{IsSmallChain};
ghost use Rattle.sc_cone.specs.Cones.{chain_of};
ghost use Rattle.sc_crossing.specs.Lengths.{IsLight};
ghost use Rattle.sc_solve.specs.Solutions.{IsStopped};
ghost use Rattle.sc_ball.specs.inside.Solved.{IsSmall, IsSolvedIn};
ghost use Rattle.sc_ball.specs.inside.Searched.{SpanPlane};

use sc_chain::Chain;
use sc_cone::{Direction, Quadrant};
use sc_crossing::{Reached, chain_at};
use sc_fraction::Frac;
use sc_solve::{Solution, SolveFault, extremal};
use std::alloc::Global;

/// A direction with a price list that is tight there, and its value.
#[derive(Drop)]
pub(crate) struct Solved {
    pub(crate) reached: Reached,
    pub(crate) value: Frac,
}

/// What every chain keeps.
pub(crate) fn check_chain(chain: &Chain)
    ensures { IsSmallChain chain.now }
{
    // The call is for its contract alone: by it the prover knows what the chain's invariant says.
    let _words = chain.words();
}

/// What the surface and the list of every solution keep.
fn check_solution(solution: &Solution)
    ensures surface { IsSmallFatgraph solution.now.fatgraph }
    ensures list { IsSmallList solution.now.list }
{
    // For their contracts alone, as in `check_chain`.
    let _copies = solution.fatgraph.copies();
    let _scale = solution.list.scale();
}

/// The direction with its value, by an extremal surface of its chain of at most `budget` pivots.
pub(crate) fn solved_at(
    alloc: Global,
    quadrant: Quadrant,
    first: &Chain,
    second: &Chain,
    direction: Direction,
    budget: u32,
) -> Result<Solved, SolveFault>
    requires plane { SpanPlane first.now second.now }
    requires budget { 0 < budget }
    requires light { IsLight first.now second.now direction }
    requires small { IsSmall direction }
    ensures direction { IfOk result (λ s. s.reached.direction ≡ direction) }
    ensures solved { IfOk result (IsSolvedIn quadrant first.now second.now) }
    ensures stopped { IfErr result (IsStopped (chain_of quadrant first.now second.now direction) budget) }
{
    check_chain(first);
    check_chain(second);
    let chain = chain_at(alloc, quadrant, first, second, direction)?;
    let solution = extremal(alloc, &chain, budget)?;
    check_solution(&solution);
    Ok(Solved {
        reached: Reached {
            direction,
            list: solution.list,
        },
        value: solution.value,
    })
}
