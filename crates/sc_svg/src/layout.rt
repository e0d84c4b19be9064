//! Where the sides stand: vertex by vertex along a line.

ghost use Rattle.std.specs.Prelude.{◌≡◌, ℕ, ◌+◌, ◌<◌, ◌≤◌, ◌^◌, true, length, IfOk, OnOk, vec_len};
ghost use Rattle.sc_algebra.specs.Sums.{count_below};
ghost use Rattle.sc_algebra.specs.Permutations.{is_least_for};
ghost use Rattle.sc_theory.specs.Fatgraphs.{turn, vertices};
ghost use Rattle.sc_fatgraph.specs.inside.Orbits.{IsRibbon};
ghost use Rattle.sc_svg.specs.inside.LaidOut.{AreLaidBelow, IsLaidTo, LaysOrbit, AreLeastOfOrbits};

use sc_fatgraph::limits::MAX_SIDES;
use sc_fatgraph::{Fatgraph, Side};
use sc_shape::least_of_vertices;
use std::alloc::{AllocError, Global};

/// The sides in the order in which they stand, the x of each, and at the least side of each vertex its last one; the
/// least side of the vertex of each side, and how many vertices there are.
#[derive(Drop)]
pub(crate) struct Layout {
    pub(crate) order: Vec<u32>,
    pub(crate) xs: Vec<u32>,
    pub(crate) lasts: Vec<u32>,
    pub(crate) least: Vec<u32>,
    pub(crate) vertices: u32,
}

/// Lays the sides round the vertex whose least side is `start`, the vertex number `vertex`, behind those in the
/// order, and answers the last of them.
fn lay_vertex(
    sides: &[Side],
    start: u32,
    vertex: u32,
    order: &mut Vec<u32>,
    xs: &mut [u32],
) -> Result<u32, AllocError>
    requires few { length sides.now ≤ MAX_SIDES }
    requires ribbon { IsRibbon sides.now }
    requires inside { start < length sides.now }
    requires least { is_least_for (turn sides.now) (length sides.now) start ≡ true }
    requires number { vertex ≡ count_below (is_least_for (turn sides.now) (length sides.now)) start }
    requires laid { IsLaidTo (turn sides.now) (length sides.now) start order.old.items xs.old }
    ensures { IfOk result (λ last. LaysOrbit (turn sides.now) (length sides.now) start order.old.items xs.old last order.new.items xs.new) }
{
    let mut side = start;
    loop {
        xs[side as usize] = 20 * (order.len() as u32 + 1 + vertex);
        order.push(side)?;
        let next = sides[sides[side as usize].next as usize].mate;
        if next == start {
            return Ok(side);
        }
        side = next;
    }
}

/// Lays out the sides of all vertices, and answers how many these are.
fn lay_vertices(
    sides: &[Side],
    least: &[u32],
    order: &mut Vec<u32>,
    xs: &mut [u32],
    lasts: &mut [u32],
) -> Result<u32, AllocError>
    requires few { length sides.now ≤ MAX_SIDES }
    requires ribbon { IsRibbon sides.now }
    requires as_many { length least.now ≡ length sides.now }
    requires least { AreLeastOfOrbits (turn sides.now) (length sides.now) least.now }
    requires laid { AreLaidBelow (turn sides.now) (length sides.now) 0 order.old.items xs.old lasts.old }
    ensures count { IfOk result (λ count. count ≡ vertices sides.now) }
    ensures laid { OnOk result (AreLaidBelow (turn sides.now) (length sides.now) (length sides.now) order.new.items xs.new lasts.new) }
{
    let mut vertices = 0;
    for start in 0..sides.len() as u32 {
        if least[start as usize] == start {
            lasts[start as usize] = lay_vertex(sides, start, vertices, order, xs)?;
            vertices += 1;
        }
    }
    Ok(vertices)
}

/// The layout of a fatgraph.
pub(crate) fn lay_out(alloc: Global, fatgraph: &Fatgraph) -> Result<Layout, AllocError>
    ensures vertices { IfOk result (λ layout. layout.vertices ≡ vertices fatgraph.now.sides) }
    ensures as_many { IfOk result (λ layout. length layout.least.items ≡ length fatgraph.now.sides) }
    ensures least { IfOk result (λ layout. AreLeastOfOrbits (turn fatgraph.now.sides) (length fatgraph.now.sides) layout.least.items) }
    ensures laid { IfOk result (λ layout. AreLaidBelow (turn fatgraph.now.sides) (length fatgraph.now.sides) (length fatgraph.now.sides) layout.order.items layout.xs.items layout.lasts.items) }
{
    let least = least_of_vertices(alloc, fatgraph)?;
    let sides = fatgraph.sides().as_slice();
    let mut order = Vec::new(alloc);
    let mut xs = vec![in alloc; 0; sides.len()]?;
    let mut lasts = vec![in alloc; 0; sides.len()]?;
    let vertices = lay_vertices(
        sides,
        least.as_slice(),
        &mut order,
        xs.as_mut_slice(),
        lasts.as_mut_slice(),
    )?;
    Ok(Layout {
        order,
        xs,
        lasts,
        least,
        vertices,
    })
}
