//! Components of a fatgraph, and their boundaries.

ghost use Rattle.std.specs.Prelude.{◌≡◌, ◌-ℤ◌, ◌==◌, [], ◌∷◌, ◌++◌, length, pos, OnOk, OnErr, slice_get};

use std::alloc::{AllocError, Global};
use std::marker::Model;

/// A boundary of a fatgraph: a cycle of next sides, which runs along a word of the chain some whole number of times.
#[derive(Clone, Copy, Debug, PartialEq, Eq, Hash)]
pub struct Boundary {
    /// The least side on it.
    pub least: u32,
    /// The word that it runs along, from 0.
    pub word: u32,
    /// How many times it runs along the word.
    pub degree: u32,
}

/// A list of boundaries.
#[derive(Debug, Drop)]
pub struct Boundaries {
    items: Vec<Boundary>,
}

impl Model for Boundaries {
    ghost use Rattle.std.specs.Prelude.{List};
    ghost use Rattle.sc_shape.specs.declared.component.Boundary.{Boundary};

    ghost Value = { List Boundary };

    ghost view = { λ s. s.items.items };
}

impl Boundaries {
    /// No boundaries.
    pub fn new(alloc: Global) -> Self
        ensures { result ≡ [] }
    {
        Boundaries {
            items: Vec::new(alloc),
        }
    }

    /// Puts a boundary after the others.
    pub fn push(&mut self, boundary: Boundary) -> Result<(), AllocError>
        ensures ok { OnOk result (self.new ≡ self.old ++ boundary ∷ []) }
        ensures err { OnErr result (self.new ≡ self.old) }
    {
        self.items.push(boundary)?;
        Ok(())
    }

    /// How many boundaries there are.
    pub fn len(&self) -> usize
        ensures { result ≡ length self.now }
    {
        self.items.len()
    }

    /// Whether there is no boundary.
    pub fn is_empty(&self) -> bool
        ensures { result ≡ (length self.now == 0) }
    {
        self.items.is_empty()
    }

    /// The boundaries as a slice.
    pub fn as_slice(&self) -> &[Boundary]
        ensures { result.now ≡ self.now }
    {
        self.items.as_slice()
    }
}

/// A component of a fatgraph: a class of sides that steps to mates and next sides join.
#[derive(Debug, Drop)]
pub struct Component {
    /// The least side of it.
    pub least: u32,
    /// How many sides it has.
    pub sides: u32,
    /// How many vertices: orbits of the step from a side to the mate of its next.
    pub vertices: u32,
    /// How many edges, of two sides each.
    pub edges: u32,
    /// Its boundaries, in the order of their least sides.
    pub boundaries: Boundaries,
}

/// The Euler number of a component: its vertices less its edges.
pub fn euler_of(component: &Component) -> i64
    ensures { result ≡ pos component.now.vertices -ℤ pos component.now.edges }
{
    i64::from(component.vertices) - i64::from(component.edges)
}
