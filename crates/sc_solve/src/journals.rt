//! Journals of polygons, from journals that name the polygons by their keys.

ghost use Rattle.std.specs.Prelude.{◌≡◌, map, IfOk};
ghost use Rattle.std.specs.List.{AllByRecursion};
ghost use Rattle.sc_theory.specs.Walks.{IsPolygon};
ghost use Rattle.sc_solve.specs.inside.Assembling.{named_pivot};

use sc_chain::{Chain, Pivot, Polygon};
use sc_simplex::KeyPivot;
use std::alloc::{AllocError, Global};

/// The polygon that is a key.
pub(crate) fn polygon_of(chain: &Chain, key: Vec<u32>) -> Polygon
    requires { IsPolygon chain.now key.items }
    ensures { result ≡ key.items }
{
    match Polygon::of(chain, key) {
        Some(polygon) => polygon,
        // The key is a polygon, as the contract demands; that this arm is never reached is proved.
        None => unreachable!(),
    }
}

/// The pivot of the polygon that is named.
fn polygon_pivot(alloc: Global, chain: &Chain, named: &KeyPivot) -> Result<Pivot, AllocError>
    requires { IsPolygon chain.now named.now.key.items }
    ensures { IfOk result (λ pivot. pivot ≡ named_pivot named.now) }
{
    let key = Vec::from_slice(alloc, named.key.as_slice())?;
    Ok(Pivot {
        row: named.row,
        polygon: polygon_of(chain, key),
    })
}

/// The journal of the polygons that are named.
pub(crate) fn polygon_journal(
    alloc: Global,
    chain: &Chain,
    named: &[KeyPivot],
) -> Result<Vec<Pivot>, AllocError>
    requires { AllByRecursion (λ k. IsPolygon chain.now k.key.items) named.now }
    ensures { IfOk result (λ journal. journal.items ≡ map named_pivot named.now) }
{
    let mut journal = Vec::with_capacity(alloc, named.len())?;
    for pivot in named {
        journal.push(polygon_pivot(alloc, chain, pivot)?)?;
    }
    Ok(journal)
}
