//! The labelled fatgraph that copies of polygons are glued to.

ghost use Rattle.std.specs.Prelude.{◌≡◌, ◌*◌, ◌<◌, ◌≤◌, ◌^◌, length, sum, IfOk};
ghost use Rattle.sc_theory.specs.Chains.{weighted_length};
ghost use Rattle.sc_theory.specs.Fatgraphs.{IsFatgraph, vertices};
ghost use Rattle.sc_fatgraph.specs.declared.limits.TheConstants.{MAX_COPIES, MAX_SIDES};
ghost use Rattle.sc_gluing.specs.Cycles.{copies_of, labels_of};
ghost use Rattle.sc_gluing.specs.Gluing.{IsGlued, AreBalanced};
ghost use Rattle.sc_gluing.specs.Laying.{AreLaid};
ghost use Rattle.sc_assembly.specs.Copies.{parts_of};
ghost use Rattle.sc_assembly.specs.Multiples.{counted};

use crate::parts::{Multiples, Part};
use sc_chain::Chain;
use sc_fatgraph::{Fatgraph, Sides, SurfaceFault};
use sc_gluing::{Laid, glue_laid};
use sc_theory::Side;
use std::alloc::{AllocError, Global};

/// Lays the copies of the polygons one behind another, part by part.
fn lay_parts(alloc: Global, parts: &[Part], counts: &[u32]) -> Result<Laid, AllocError>
    requires as_many { length counts.now ≡ length parts.now }
    requires few { length (labels_of (copies_of (counted parts.now counts.now))) < 2 ^ 32 }
    ensures { IfOk result (λ laid. AreLaid (copies_of (counted parts.now counts.now)) laid.labels.items laid.afters.items) }
{
    let mut laid = Laid::new(alloc);
    for (place, part) in parts.iter().enumerate() {
        laid.lay_copies(part.polygon.walk(), counts[place])?;
    }
    Ok(laid)
}

/// The fatgraph of sides that are one.
fn fatgraph_of(alloc: Global, chain: &Chain, n: u32, sides: Sides) -> Result<Fatgraph, AllocError>
    requires few_copies { n ≤ MAX_COPIES }
    requires few_sides { length sides ≤ MAX_SIDES }
    requires fatgraph { IsFatgraph chain.now n sides }
    ensures chain { IfOk result (λ f. f.chain ≡ chain.now) }
    ensures copies { IfOk result (λ f. f.copies ≡ n) }
    ensures sides { IfOk result (λ f. f.sides ≡ sides) }
{
    match Fatgraph::check(alloc, chain.copy(alloc)?, n, sides) {
        Ok(fatgraph) => Ok(fatgraph),
        Err(SurfaceFault::Memory) => Err(AllocError),
        Err(SurfaceFault::Flaw { .. }) => unreachable!(),
    }
}

/// The sides that are glued of the copies of the parts' polygons.
fn glued_sides(alloc: Global, chain: &Chain, multiples: &Multiples) -> Result<Vec<Side>, AllocError>
    requires few_sides { multiples.now.n * weighted_length chain.now ≤ MAX_SIDES }
    requires as_many { length multiples.now.counts.items ≡ length multiples.now.parts.items }
    requires balanced { AreBalanced chain.now multiples.now.n (parts_of multiples.now) }
    ensures { IfOk result (λ sides. IsGlued chain.now (copies_of (parts_of multiples.now)) sides.items) }
{
    let laid = lay_parts(
        alloc,
        multiples.parts.as_slice(),
        multiples.counts.as_slice(),
    )?;
    glue_laid(alloc, chain, &laid)
}

/// The labelled fatgraph that is glued of the copies of the parts' polygons. Its vertices are as many as the copies.
/// It takes time and memory that grow with its sides alone.
pub fn glue(alloc: Global, chain: &Chain, multiples: &Multiples) -> Result<Fatgraph, AllocError>
    requires some_copies { 1 ≤ multiples.now.n }
    requires few_copies { multiples.now.n ≤ MAX_COPIES }
    requires few_sides { multiples.now.n * weighted_length chain.now ≤ MAX_SIDES }
    requires as_many { length multiples.now.counts.items ≡ length multiples.now.parts.items }
    requires balanced { AreBalanced chain.now multiples.now.n (parts_of multiples.now) }
    ensures chain { IfOk result (λ f. f.chain ≡ chain.now) }
    ensures copies { IfOk result (λ f. f.copies ≡ multiples.now.n) }
    ensures glued { IfOk result (λ f. IsGlued chain.now (copies_of (parts_of multiples.now)) f.sides) }
    ensures fatgraph { IfOk result (λ f. IsFatgraph chain.now multiples.now.n f.sides) }
    ensures vertices { IfOk result (λ f. vertices f.sides ≡ sum multiples.now.counts.items) }
{
    let sides = glued_sides(alloc, chain, multiples)?;
    fatgraph_of(alloc, chain, multiples.n, Sides::from_vec(sides))
}
