//! The sides of a fatgraph, in order.

ghost use Rattle.std.specs.Prelude.{◌≡◌, ◌==◌, [], ◌∷◌, ◌++◌, length, OnOk, OnErr, slice_get};

use crate::Side;
use std::alloc::{AllocError, Global};
use std::marker::Model;

/// A list of sides, numbered from 0.
#[derive(Debug, Drop)]
pub struct Sides {
    items: Vec<Side>,
}

impl Model for Sides {
    ghost use Rattle.std.specs.Prelude.{List};
    ghost use Rattle.sc_theory.specs.declared.Side.{Side};

    ghost Value = { List Side };

    ghost view = { λ s. s.items.items };
}

impl Sides {
    /// No sides.
    pub fn new(alloc: Global) -> Self
        ensures { result ≡ [] }
    {
        Sides {
            items: Vec::new(alloc),
        }
    }

    /// These sides.
    pub fn from_vec(items: Vec<Side>) -> Self
        ensures { result ≡ items.items }
    {
        Sides { items }
    }

    /// Puts a side after the others.
    pub fn push(&mut self, side: Side) -> Result<(), AllocError>
        ensures ok { OnOk result (self.new ≡ self.old ++ side ∷ []) }
        ensures err { OnErr result (self.new ≡ self.old) }
    {
        self.items.push(side)?;
        Ok(())
    }

    /// How many sides there are.
    pub fn len(&self) -> usize
        ensures { result ≡ length self.now }
    {
        self.items.len()
    }

    /// Whether there is no side.
    pub fn is_empty(&self) -> bool
        ensures { result ≡ (length self.now == 0) }
    {
        self.items.is_empty()
    }

    /// The side number `i`, if there is one.
    pub fn get(&self, i: usize) -> Option<Side>
        ensures { result ≡ slice_get self.now i }
    {
        self.items.get(i).copied()
    }

    /// The sides as a slice.
    pub fn as_slice(&self) -> &[Side]
        ensures { result.now ≡ self.now }
    {
        self.items.as_slice()
    }
}
