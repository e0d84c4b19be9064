//! Labelled fatgraphs over a chain.

ghost use Rattle.std.specs.Prelude.{◌≡◌, ◌==◌, ◌<◌, ◌≤◌, length, get_or, IfOk, IfErr, OnOk};
ghost use Rattle.sc_theory.specs.Chains.{IsBalanced};
ghost use Rattle.sc_theory.specs.Fatgraphs.{IsFatgraph, no_side, vertices, edges};
ghost use Rattle.sc_fatgraph.specs.Faults.{IsFaultOf};
ghost use Rattle.sc_fatgraph.specs.Surfaces.{surface, IsSmallFatgraph};

use crate::flaws::{SurfaceFault, first_flaw};
use crate::limits::{MAX_COPIES, MAX_SIDES};
use crate::orbits::count_vertices;
use crate::side_list::Sides;
use sc_chain::Chain;
use sc_theory::Side;
use std::alloc::{AllocError, Global};
use std::marker::Model;

/// A labelled fatgraph over a number of copies of a chain.
#[derive(Debug, Drop)]
pub struct Fatgraph {
    chain: Chain,
    copies: u32,
    sides: Sides,
}

impl Model for Fatgraph {
    ghost use Rattle.sc_fatgraph.specs.Surfaces.{Surface, surface, IsSmallFatgraph};

    ghost Value = { Surface };

    ghost view = { λ f. surface f.chain f.copies f.sides };

    ghost invariant = { λ f. IsSmallFatgraph (surface f.chain f.copies f.sides) };
}

/// How many sides, vertices and edges a fatgraph has.
#[derive(Clone, Copy, Debug, PartialEq, Eq, Hash)]
pub struct Counts {
    /// The sides, two for each edge.
    pub sides: u32,
    /// The vertices: the orbits of the step from a side to the mate of its next.
    pub vertices: u32,
    /// The edges.
    pub edges: u32,
}

impl Fatgraph {
    /// The fatgraph of these sides over `n` copies of the chain, if they are one, else their first flaw.
    pub fn check(
        alloc: Global,
        chain: Chain,
        n: u32,
        sides: Sides,
    ) -> Result<Fatgraph, SurfaceFault>
        requires some_copies { 1 ≤ n }
        requires few_copies { n ≤ MAX_COPIES }
        requires few_sides { length sides ≤ MAX_SIDES }
        ensures value { IfOk result (λ f. f ≡ surface chain n sides) }
        ensures fatgraph { OnOk result (IsFatgraph chain n sides) }
        ensures balanced { OnOk result (IsBalanced chain) }
        ensures refused { IfErr result (IsFaultOf chain n sides) }
        ensures accepted { IsFatgraph chain n sides → IfErr result (λ e. e ≡ SurfaceFault.Memory) }
    {
        match first_flaw(alloc, &chain, n, sides.as_slice())? {
            Some((kind, place)) => Err(SurfaceFault::Flaw { kind, place }),
            None => Ok(Fatgraph {
                chain,
                copies: n,
                sides,
            }),
        }
    }

    /// The chain that it is over.
    pub fn chain(&self) -> &Chain
        ensures value { result.now ≡ self.now.chain }
        ensures fatgraph { IsSmallFatgraph self.now }
    {
        &self.chain
    }

    /// How many copies of the chain its boundary runs along.
    pub fn copies(&self) -> u32
        ensures value { result ≡ self.now.copies }
        ensures fatgraph { IsSmallFatgraph self.now }
    {
        self.copies
    }

    /// How many sides it has.
    pub fn len(&self) -> u32
        ensures value { result ≡ length self.now.sides }
        ensures fatgraph { IsSmallFatgraph self.now }
    {
        self.sides.len() as u32
    }

    /// Whether it has no side.
    pub fn is_empty(&self) -> bool
        ensures { result ≡ (length self.now.sides == 0) }
    {
        self.sides.is_empty()
    }

    /// The side number `i`.
    pub fn side(&self, i: u32) -> Side
        requires { i < length self.now.sides }
        ensures value { result ≡ get_or self.now.sides i no_side }
        ensures fatgraph { IsSmallFatgraph self.now }
    {
        self.sides.as_slice()[i as usize]
    }

    /// The sides in order.
    pub fn sides(&self) -> &Sides
        ensures value { result.now ≡ self.now.sides }
        ensures fatgraph { IsSmallFatgraph self.now }
    {
        &self.sides
    }

    /// Counts the sides, vertices and edges.
    pub fn counts(&self, alloc: Global) -> Result<Counts, AllocError>
        ensures sides { IfOk result (λ counts. counts.sides ≡ length self.now.sides) }
        ensures vertices { IfOk result (λ counts. counts.vertices ≡ vertices self.now.sides) }
        ensures edges { IfOk result (λ counts. counts.edges ≡ edges self.now.sides) }
    {
        let sides = self.sides.len();
        let mut marks = vec![in alloc; false; sides]?;
        Ok(Counts {
            sides: sides as u32,
            vertices: count_vertices(self.sides.as_slice(), marks.as_mut_slice()),
            edges: (sides / 2) as u32,
        })
    }
}
