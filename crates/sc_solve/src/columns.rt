//! The columns of polygons, and the right side of a chain.

ghost use Rattle.std.specs.Prelude.{◌≡◌, ◌<◌, ◌≤◌, ◌+◌, ℕ, length, map, pos, ◌-ℤ◌, IfOk};
ghost use Rattle.std.specs.List.{range_with_len};
ghost use Rattle.sc_theory.specs.Walks.{IsPolygon};
ghost use Rattle.sc_theory.specs.Prices.{pairs as pairs_of};
ghost use Rattle.sc_theory.specs.Columns.{rows, column, right_side, steps_of, passes};
ghost use Rattle.sc_chain.specs.declared.limits.TheConstants.{MAX_POSITIONS};
ghost use Rattle.sc_solve.specs.PolygonColumns.{column_entries, IsPolygonColumn};
ghost use Rattle.sc_solve.specs.inside.StepCounts.{step_between};

use sc_chain::{Chain, Pairs, Polygon};
use sc_simplex::Column;
use std::alloc::{AllocError, Global};

/// 1 where the step from `here` to `next` is that from one position to another, else 0.
fn step_counted(here: u32, next: u32, from: usize, to: usize) -> usize
    ensures step { pos result ≡ step_between from to here next }
    ensures few { result ≤ 1 }
{
    if here as usize == from && next as usize == to {
        1
    } else {
        0
    }
}

/// How many steps of a closed walk go from one position to another.
fn steps_between(walk: &[u32], from: usize, to: usize) -> usize
    requires few { length walk.now ≤ MAX_POSITIONS }
    ensures steps { pos result ≡ steps_of walk.now from to }
    ensures few { result ≤ MAX_POSITIONS }
{
    let [first, rest @ ..] = walk else {
        return 0;
    };
    let mut here = *first;
    let mut count = 0;
    for next in rest {
        count += step_counted(here, *next, from, to);
        here = *next;
    }
    count + step_counted(here, *first, from, to)
}

/// The first count minus the second.
fn difference(there: usize, back: usize) -> i128
    requires few { there ≤ MAX_POSITIONS }
    requires few_back { back ≤ MAX_POSITIONS }
    ensures { result ≡ pos there -ℤ pos back }
{
    there as i128 - back as i128
}

/// How often a walk passes a position.
fn passes_of(walk: &[u32], position: usize) -> usize
    ensures { result ≡ passes walk.now position }
{
    walk.iter()
        .filter(|here| **here as usize == position)
        .count()
}

/// The entry of the column of a closed walk in a row.
fn entry_at(chain: &Chain, pairs: &Pairs, walk: &[u32], row: usize) -> i128
    requires pairs { pairs.now ≡ pairs_of chain.now }
    requires few { length walk.now ≤ MAX_POSITIONS }
    requires inside { row < rows chain.now }
    ensures { result ≡ column chain.now walk.now row }
{
    if row < pairs.count() {
        let (p, q) = pairs.pair_at(row);
        let there = steps_between(walk, chain.prev(p), q);
        let back = steps_between(walk, chain.prev(q), p);
        difference(there, back)
    } else {
        passes_of(walk, chain.first_of(row - pairs.count())) as i128
    }
}

/// The entries of the column of a closed walk that aren't 0, by ascending rows.
fn entries_of_walk(
    alloc: Global,
    chain: &Chain,
    pairs: &Pairs,
    walk: &[u32],
) -> Result<Vec<(u32, i128)>, AllocError>
    requires pairs { pairs.now ≡ pairs_of chain.now }
    requires few { length walk.now ≤ MAX_POSITIONS }
    ensures { IfOk result (λ entries. entries.items ≡ column_entries chain.now walk.now) }
{
    let mut entries = Vec::new(alloc);
    for row in 0..pairs.count() + chain.words() {
        let entry = entry_at(chain, pairs, walk, row);
        if entry != 0 {
            entries.push((row as u32, entry))?;
        }
    }
    Ok(entries)
}

/// The column of a polygon, with its walk as the key.
pub fn column_of(
    alloc: Global,
    chain: &Chain,
    pairs: &Pairs,
    polygon: &Polygon,
) -> Result<Column, AllocError>
    requires pairs { pairs.now ≡ pairs_of chain.now }
    requires polygon { IsPolygon chain.now polygon.now }
    ensures key { IfOk result (λ column. column.key.items ≡ polygon.now) }
    ensures column { IfOk result (λ column. IsPolygonColumn chain.now column.key.items column.entries.items) }
{
    let walk = polygon.walk();
    let entries = entries_of_walk(alloc, chain, pairs, walk)?;
    let key = Vec::from_slice(alloc, walk)?;
    Ok(Column { key, entries })
}

/// What the columns are to sum to in a row: 0 in that of a pair, and the weight in that of a word.
fn side_at(chain: &Chain, pairs: &Pairs, row: usize) -> i128
    requires pairs { pairs.now ≡ pairs_of chain.now }
    requires inside { row < rows chain.now }
    ensures { result ≡ right_side chain.now row }
{
    if row < pairs.count() {
        0
    } else {
        i128::from(chain.weight(row - pairs.count()))
    }
}

/// The right side of a chain, a number for each row.
pub fn right_side_of(alloc: Global, chain: &Chain, pairs: &Pairs) -> Result<Vec<i128>, AllocError>
    requires pairs { pairs.now ≡ pairs_of chain.now }
    ensures { IfOk result (λ side. side.items ≡ map (right_side chain.now) (range_with_len 0 (rows chain.now))) }
{
    let mut side = Vec::new(alloc);
    for row in 0..pairs.count() + chain.words() {
        side.push(side_at(chain, pairs, row))?;
    }
    Ok(side)
}
