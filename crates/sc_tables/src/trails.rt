//! What is read from the walks of a search: one of them, and the totals of a table.

ghost use Rattle.std.specs.Prelude.{◌≡◌, ◌<◌, ℕ, length, Some, IfOk, OnOk};
ghost use Rattle.sc_tables.specs.inside.Searches.{AreEnds};
ghost use Rattle.sc_tables.specs.inside.Trails.{IsTotalOf, AreTotalsAfter, AreLinked, ReadsTo};

use crate::search::Node;
use sc_weight::Weight;
use std::alloc::{AllocError, Global};

/// The walk of a node, from the start of the search to its place.
pub(crate) fn read_back<W: Weight>(
    alloc: Global,
    nodes: &[Node<W>],
    node: usize,
) -> Result<Vec<u32>, AllocError>
    requires linked { AreLinked nodes.now }
    requires node { node < length nodes.now }
    ensures { IfOk result (λ walk. ReadsTo W.levels nodes.now node walk.items) }
{
    let mut walk = Vec::with_capacity(alloc, nodes[node].steps + 1)?;
    let mut here = node;
    while here > 0 {
        let last = nodes[here];
        walk.push(last.place as u32)?;
        here = last.before;
    }
    walk.push(nodes[0].place as u32)?;
    walk.reverse();
    Ok(walk)
}

/// The total of an entry.
fn total_at<W: Weight>(nodes: &[Node<W>], entry: Option<usize>) -> Option<W>
    requires { (n : ℕ) → entry ≡ Some n → n < length nodes.now }
    ensures { IsTotalOf nodes.now entry result }
{
    match entry {
        Some(node) => Some(nodes[node].total),
        None => None,
    }
}

/// Writes the totals of the entries behind the others.
pub(crate) fn append_totals<W: Weight>(
    cells: &mut Vec<Option<W>>,
    nodes: &[Node<W>],
    table: &[Option<usize>],
) -> Result<(), AllocError>
    requires { AreEnds nodes.now table.now }
    ensures { OnOk result (AreTotalsAfter nodes.now table.now cells.old.items cells.new.items (length table.now)) }
{
    for entry in table {
        cells.push(total_at(nodes, *entry))?;
    }
    Ok(())
}
