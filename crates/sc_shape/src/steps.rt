//! The steps from side to side, as lists, and the least side of each class that they make.

ghost use Rattle.std.specs.Prelude.{◌≡◌, ℕ, ◌<◌, ◌^◌, length, IfOk};
ghost use Rattle.sc_algebra.specs.Permutations.{is_least_for};
ghost use Rattle.sc_theory.specs.Fatgraphs.{next, turn};
ghost use Rattle.sc_fatgraph.specs.inside.Orbits.{IsRibbon};
ghost use Rattle.sc_shape.specs.inside.SideLists.{AreSteps, AreLeasts};
ghost use Rattle.sc_shape.specs.SideLists.{is_own};

use crate::classes::least_of_classes;
use sc_fatgraph::{Fatgraph, Side};
use std::alloc::{AllocError, Global};

/// The mate, the next side and the turn of each side.
#[derive(Drop)]
struct Steps {
    mates: Vec<u32>,
    nexts: Vec<u32>,
    turns: Vec<u32>,
}

/// The least side of the component, of the boundary and of the vertex of each side.
#[derive(Drop)]
pub(crate) struct Leasts {
    pub(crate) components: Vec<u32>,
    pub(crate) boundaries: Vec<u32>,
    pub(crate) vertices: Vec<u32>,
}

/// The steps of the sides.
fn steps_of(alloc: Global, sides: &[Side]) -> Result<Steps, AllocError>
    requires { (s : ℕ) → s < length sides.now → next sides.now s < length sides.now }
    ensures { IfOk result (λ steps. AreSteps sides.now (length sides.now) steps.mates.items steps.nexts.items steps.turns.items) }
{
    let mut mates = Vec::with_capacity(alloc, sides.len())?;
    let mut nexts = Vec::with_capacity(alloc, sides.len())?;
    let mut turns = Vec::with_capacity(alloc, sides.len())?;
    for side in sides {
        mates.push(side.mate)?;
        nexts.push(side.next)?;
        turns.push(sides[side.next as usize].mate)?;
    }
    Ok(Steps {
        mates,
        nexts,
        turns,
    })
}

/// The least side of each class of the sides.
pub(crate) fn leasts_of(alloc: Global, sides: &[Side]) -> Result<Leasts, AllocError>
    requires ribbon { IsRibbon sides.now }
    requires few { length sides.now < 2 ^ 32 }
    ensures { IfOk result (λ leasts. AreLeasts sides.now leasts.components.items leasts.boundaries.items leasts.vertices.items) }
{
    let steps = steps_of(alloc, sides)?;
    let mates = steps.mates.as_slice();
    let nexts = steps.nexts.as_slice();
    let turns = steps.turns.as_slice();
    let components = least_of_classes(alloc, mates, nexts)?;
    let boundaries = least_of_classes(alloc, nexts, nexts)?;
    let vertices = least_of_classes(alloc, turns, turns)?;
    Ok(Leasts {
        components,
        boundaries,
        vertices,
    })
}

/// For each side the least side at its vertex. The sides at a vertex are those to which turns lead, each from a side to
/// the mate of its next side. So a side has its own number here exactly where it is the least one at its vertex.
pub fn least_of_vertices(alloc: Global, fatgraph: &Fatgraph) -> Result<Vec<u32>, AllocError>
    ensures as_many { IfOk result (λ least. length least.items ≡ length fatgraph.now.sides) }
    ensures least { IfOk result (λ least. (s : ℕ) → s < length fatgraph.now.sides → is_own least.items s ≡ is_least_for (turn fatgraph.now.sides) (length fatgraph.now.sides) s) }
{
    let Leasts { vertices, .. } = leasts_of(alloc, fatgraph.sides().as_slice())?;
    Ok(vertices)
}
