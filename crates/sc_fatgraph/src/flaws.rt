//! The flaws of a list of sides that is no labelled fatgraph: for each kind the least place that has it.

ghost use Rattle.std.specs.Prelude.{◌≡◌, ℕ, ◌^◌, ◌<◌, false, length, get_or, IfOk, MatchOption};
ghost use Rattle.sc_theory.specs.Fatgraphs.{IsFatgraph, mate, next};
ghost use Rattle.sc_fatgraph.specs.declared.flaws.SurfaceFault.TheVariants.{Memory};
ghost use Rattle.sc_theory.specs.Chains.{positions};
ghost use Rattle.sc_fatgraph.specs.Flaws.{HasRangeFlaw, HasMateFlaw, HasLetterFlaw, HasNextFlaw, HasLabelFlaw, HasCountFlaw, IsFirstFlaw};
ghost use Rattle.sc_fatgraph.specs.inside.Flaws.{IsLeastPlace, AreInRange, AreLabelCounts};

use crate::Side;
use sc_chain::{Chain, is_inverse};
use std::alloc::{AllocError, Global};

/// What a list of sides fails in. The kinds stand in the order in which they are tried.
#[derive(Clone, Copy, Debug, PartialEq, Eq, Hash)]
pub enum FlawKind {
    /// A label, a mate or a next of the side is out of range.
    Range,
    /// The side is its own mate, or isn't the mate of its mate.
    Mate,
    /// The letters of the side and of its mate aren't inverse.
    Letter,
    /// A lesser side has the same next.
    Next,
    /// The label of the next side isn't the next position.
    Label,
    /// The first position of the word isn't the label of as many sides as the copies run along it.
    Count,
}

/// Why a list of sides isn't taken for a fatgraph.
#[derive(Clone, Copy, Debug, PartialEq, Eq, Hash)]
pub enum SurfaceFault {
    /// It has a flaw, and this is the first: of the least kind, and among its flaws of this kind the one at the least
    /// place. The place is a side; with `Count` it is a word of the chain.
    Flaw {
        /// What fails.
        kind: FlawKind,
        /// The number of the side or word where it fails.
        place: u32,
    },
    /// There was no memory for the marks.
    Memory,
}

impl From<AllocError> for SurfaceFault {
    ghost from_gives = { λ _ fault. fault ≡ Memory };

    fn from(_: AllocError) -> Self {
        SurfaceFault::Memory
    }
}

/// The least side whose label, mate or next is out of range.
fn first_range_flaw(chain: &Chain, sides: &[Side]) -> Option<u32>
    requires few { length sides.now < 2 ^ 32 }
    ensures { IsLeastPlace (HasRangeFlaw chain.now sides.now) result }
{
    let positions = chain.positions();
    let count = sides.len();
    for s in 0..count as u32 {
        let side = sides[s as usize];
        if side.label as usize >= positions
            || side.mate as usize >= count
            || side.next as usize >= count
        {
            return Some(s);
        }
    }
    None
}

/// The least side that is its own mate or isn't the mate of its mate.
fn first_mate_flaw(sides: &[Side]) -> Option<u32>
    requires few { length sides.now < 2 ^ 32 }
    requires mates { (s : ℕ) → s < length sides.now → mate sides.now s < length sides.now }
    ensures { IsLeastPlace (HasMateFlaw sides.now) result }
{
    for s in 0..sides.len() as u32 {
        let mate = sides[s as usize].mate;
        if mate == s || sides[mate as usize].mate != s {
            return Some(s);
        }
    }
    None
}

/// The least side whose letter isn't the inverse of its mate's.
fn first_letter_flaw(chain: &Chain, sides: &[Side]) -> Option<u32>
    requires few { length sides.now < 2 ^ 32 }
    requires in_range { AreInRange chain.now sides.now }
    ensures { IsLeastPlace (HasLetterFlaw chain.now sides.now) result }
{
    for s in 0..sides.len() as u32 {
        let side = sides[s as usize];
        let mate = sides[side.mate as usize];
        let letter = chain.letter(side.label as usize);
        if !is_inverse(letter, chain.letter(mate.label as usize)) {
            return Some(s);
        }
    }
    None
}

/// The least side whose next a lesser side has too. The marks are the caller's, one for each side and none made; the
/// next of each side gets one.
fn first_next_flaw(sides: &[Side], marks: &mut [bool]) -> Option<u32>
    requires few { length sides.now < 2 ^ 32 }
    requires nexts { (s : ℕ) → s < length sides.now → next sides.now s < length sides.now }
    requires as_many { length marks.old ≡ length sides.now }
    requires unmarked { (s : ℕ) → get_or marks.old s false ≡ false }
    ensures { IsLeastPlace (HasNextFlaw sides.now) result }
{
    for s in 0..sides.len() as u32 {
        let next = sides[s as usize].next;
        if marks[next as usize] {
            return Some(s);
        }
        marks[next as usize] = true;
    }
    None
}

/// The least side whose next isn't labelled with the next position.
fn first_label_flaw(chain: &Chain, sides: &[Side]) -> Option<u32>
    requires few { length sides.now < 2 ^ 32 }
    requires in_range { AreInRange chain.now sides.now }
    ensures { IsLeastPlace (HasLabelFlaw chain.now sides.now) result }
{
    for s in 0..sides.len() as u32 {
        let side = sides[s as usize];
        let next = sides[side.next as usize];
        if next.label as usize != chain.succ(side.label as usize) {
            return Some(s);
        }
    }
    None
}

/// Counts into the tally, which has a 0 for each position, how many sides have it as their label.
fn count_labels(chain: &Chain, sides: &[Side], tally: &mut [u32])
    requires few { length sides.now < 2 ^ 32 }
    requires in_range { AreInRange chain.now sides.now }
    requires as_many { length tally.old ≡ positions chain.now }
    requires empty { (i : ℕ) → get_or tally.old i 0 ≡ 0 }
    ensures { AreLabelCounts chain.now sides.now tally.new }
{
    for s in 0..sides.len() {
        let label = sides[s].label as usize;
        tally[label] += 1;
    }
}

/// The least word whose first position labels another number of sides than the copies run along it.
fn first_count_flaw(chain: &Chain, n: u32, sides: &[Side], tally: &[u32]) -> Option<u32>
    requires as_many { length tally.now ≡ positions chain.now }
    requires counts { AreLabelCounts chain.now sides.now tally.now }
    ensures { IsLeastPlace (HasCountFlaw chain.now n sides.now) result }
{
    for w in 0..chain.words() {
        let count = tally[chain.first_of(w)];
        if u64::from(count) != u64::from(n) * u64::from(chain.weight(w)) {
            return Some(w as u32);
        }
    }
    None
}

/// The first flaw of the sides, if they aren't a labelled fatgraph over `n` copies of the chain.
pub(crate) fn first_flaw(
    alloc: Global,
    chain: &Chain,
    n: u32,
    sides: &[Side],
) -> Result<Option<(FlawKind, u32)>, AllocError>
    requires some_copies { 0 < n }
    requires few { length sides.now < 2 ^ 32 }
    ensures { IfOk result
        (λ found. MatchOption found (IsFatgraph chain.now n sides.now)
        (λ f. IsFirstFlaw chain.now n sides.now f.0 f.1)) }
{
    if let Some(place) = first_range_flaw(chain, sides) {
        return Ok(Some((FlawKind::Range, place)));
    }
    if let Some(place) = first_mate_flaw(sides) {
        return Ok(Some((FlawKind::Mate, place)));
    }
    if let Some(place) = first_letter_flaw(chain, sides) {
        return Ok(Some((FlawKind::Letter, place)));
    }
    let mut marks = vec![in alloc; false; sides.len()]?;
    if let Some(place) = first_next_flaw(sides, marks.as_mut_slice()) {
        return Ok(Some((FlawKind::Next, place)));
    }
    if let Some(place) = first_label_flaw(chain, sides) {
        return Ok(Some((FlawKind::Label, place)));
    }
    let mut tally = vec![in alloc; 0; chain.positions()]?;
    count_labels(chain, sides, tally.as_mut_slice());
    if let Some(word) = first_count_flaw(chain, n, sides, tally.as_slice()) {
        return Ok(Some((FlawKind::Count, word)));
    }
    Ok(None)
}
