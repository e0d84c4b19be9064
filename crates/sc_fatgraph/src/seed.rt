//! The seed surface of a balanced chain: the first labelled fatgraph over it.

ghost use Rattle.std.specs.Prelude.{◌≡◌, IfOk};
ghost use Rattle.sc_theory.specs.Chains.{IsBalanced};
ghost use Rattle.sc_theory.specs.Fatgraphs.{IsFatgraph};
ghost use Rattle.sc_gluing.specs.Seeds.{IsSeed};

use crate::fatgraph::Fatgraph;
use crate::flaws::SurfaceFault;
use crate::side_list::Sides;
use sc_chain::Chain;
use sc_gluing::seed_sides;
use std::alloc::{AllocError, Global};

/// The surface over one copy of a balanced chain whose sides go round the words, each word as often as its weight
/// says: of the sides with a letter the first is the mate of the first with its inverse, the second of the second,
/// and so on.
pub fn seed_surface(alloc: Global, chain: &Chain) -> Result<Fatgraph, AllocError>
    requires { IsBalanced chain.now }
    ensures chain { IfOk result (λ f. f.chain ≡ chain.now) }
    ensures copies { IfOk result (λ f. f.copies ≡ 1) }
    ensures seed { IfOk result (λ f. IsSeed chain.now f.sides) }
    ensures fatgraph { IfOk result (λ f. IsFatgraph chain.now 1 f.sides) }
{
    let sides = Sides::from_vec(seed_sides(alloc, chain)?);
    match Fatgraph::check(alloc, chain.copy(alloc)?, 1, sides) {
        Ok(fatgraph) => Ok(fatgraph),
        // The fault is matched by itself: so it is known that no other one comes here.
        Err(fault) => match fault {
            SurfaceFault::Memory => Err(AllocError),
            _ => unreachable!(),
        },
    }
}
