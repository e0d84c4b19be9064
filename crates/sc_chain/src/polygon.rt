//! Polygons: closed walks without repeats, each written from its least position.

ghost use Rattle.std.specs.Prelude.{◌≡◌, ◌<◌, ◌↔◌, ℕ, nat_lt, length, get_or, IsSome, IfOk, IfSome};
ghost use Rattle.std.specs.List.{list_all};
ghost use Rattle.std.specs.Bool.{OnTrue};
ghost use Rattle.sc_theory.specs.Walks.{IsPolygon};
ghost use Rattle.sc_chain.specs.Faults.{IsSmallChain};
ghost use Rattle.sc_chain.specs.Polygons as tests;

use crate::chain::Chain;
use crate::limits::MAX_POSITIONS;
use std::alloc::{AllocError, Global};
use std::marker::Model;

/// A closed walk of some chain without repeats, written from its least position.
#[derive(Debug, Drop)]
pub struct Polygon {
    walk: Vec<u32>,
}

impl Model for Polygon {
    ghost use Rattle.std.specs.Prelude.{ℕ, List};

    ghost Value = { List ℕ };

    ghost use Rattle.sc_chain.specs.Polygons.{IsSmallWalk};

    ghost view = { λ p. p.walk.items };

    ghost invariant = { λ p. IsSmallWalk p.walk.items };
}

/// An exchange in a basis: the row that leaves, and the polygon that enters.
#[derive(Debug, Drop)]
pub struct Pivot {
    pub row: u32,
    pub polygon: Polygon,
}

/// Whether these are positions with a step from the first to the second.
fn goes(chain: &Chain, from: u32, to: u32) -> bool
    ensures step { result ≡ tests.is_step chain.now from to }
    ensures small { IsSmallChain chain.now }
{
    let positions = chain.positions();
    let (i, j) = (from as usize, to as usize);
    i < positions && j < positions && chain.is_step(i, j)
}

/// Whether there is a step from each position to the next, and from the last to the first.
fn is_closed(chain: &Chain, walk: &[u32]) -> bool
    ensures closed { result ≡ tests.is_closed_walk chain.now walk.now }
    ensures in_range { OnTrue result ((k : ℕ) → k < length walk.now → get_or walk.now k 0 < MAX_POSITIONS) }
{
    let [first, rest @ ..] = walk else {
        return false;
    };
    let mut here = *first;
    for next in rest {
        if !goes(chain, here, *next) {
            return false;
        }
        here = *next;
    }
    goes(chain, here, *first)
}

/// Whether all of these positions are greater than one.
fn are_above(least: u32, others: &[u32]) -> bool
    ensures { result ≡ list_all (λ position. nat_lt least position) others.now }
{
    others.iter().all(|position| least < *position)
}

/// Whether the positions behind the first are greater than it.
fn is_from_least(walk: &[u32]) -> bool
    ensures { result ≡ tests.is_from_least walk.now }
{
    match walk {
        [] => false,
        [first, rest @ ..] => are_above(*first, rest),
    }
}

/// Whether no position stands twice.
fn is_simple(walk: &[u32]) -> bool
    requires { (k : ℕ) → k < length walk.now → get_or walk.now k 0 < MAX_POSITIONS }
    ensures { result ≡ tests.has_no_repeat walk.now }
{
    let mut seen = [false; MAX_POSITIONS];
    for position in walk {
        let position = *position as usize;
        if seen[position] {
            return false;
        }
        seen[position] = true;
    }
    true
}

/// Whether a walk is a polygon of a chain, written from its least position.
fn is_polygon(chain: &Chain, walk: &[u32]) -> bool
    ensures polygon { result ≡ tests.is_polygon chain.now walk.now }
    ensures small { OnTrue result (tests.IsSmallWalk walk.now) }
{
    is_closed(chain, walk) && is_from_least(walk) && is_simple(walk)
}

impl Polygon {
    /// The polygon of a walk, if it is one of this chain and written from its least position.
    pub fn of(chain: &Chain, walk: Vec<u32>) -> Option<Polygon>
        ensures polygon { IsSome result ↔ IsPolygon chain.now walk.items }
        ensures walk { IfSome result (λ p. p ≡ walk.items) }
    {
        if is_polygon(chain, walk.as_slice()) {
            Some(Polygon { walk })
        } else {
            None
        }
    }

    /// The positions in their order: at most `limits::MAX_POSITIONS`, each below it.
    pub fn walk(&self) -> &[u32]
        ensures walk { result.now ≡ self.now }
        ensures small { tests.IsSmallWalk self.now }
    {
        self.walk.as_slice()
    }

    /// The same polygon once more.
    pub fn copy(&self, alloc: Global) -> Result<Polygon, AllocError>
        ensures { IfOk result (λ p. p ≡ self.now) }
    {
        Ok(Polygon {
            walk: Vec::from_slice(alloc, self.walk.as_slice())?,
        })
    }
}
