//! The search for the cheapest walks from a position.

ghost use Rattle.std.specs.Prelude.{◌≡◌, ◌⊎◌, ◌<◌, ◌≤◌, ◌+◌, ℕ, true, false, length, get_or, slice_get, Option, Some, None, IfOk, IfErr, OnOk, IfSome, IfNone};
ghost use Rattle.std.specs.Ordering.{is_lt};
ghost use Rattle.sc_weight.specs.Levels.{levels_cmp};
ghost use Rattle.sc_tables.specs.Totals.{IsBelow, IsAtMost};
ghost use Rattle.sc_tables.specs.inside.Searches.{ArePlaced, IsCandidate, HasNoStep, IsStop, Closes, AllReach, Grows, IsGrowing, AreEnds};
ghost use Rattle.sc_tables.specs.Searches.{Under, UnderEach, IsEnd, IsNext};

use crate::prices::StepPrices;
use sc_weight::{Weight, WideLevel};
use std::alloc::{AllocError, AllocFailed};

/// A walk from the start of a search: its last position, the walk up to there, how many steps it has at most, and its
/// total.
#[derive(Clone, Copy, Debug)]
pub(crate) struct Node<W> {
    pub(crate) place: usize,
    pub(crate) before: usize,
    pub(crate) steps: usize,
    pub(crate) total: W,
}

/// A walk with a step more, and the total with it.
#[derive(Clone, Copy, Debug)]
pub(crate) struct Candidate<W> {
    pub(crate) node: usize,
    pub(crate) total: W,
}

/// Why a search stops before its end.
#[derive(Clone, Copy, Debug)]
pub(crate) enum Stop {
    /// The total of this walk with a step to this position is too wide.
    Wide {
        node: usize,
        to: usize,
        wide: WideLevel,
    },
    /// There was no memory.
    Memory,
}

impl From<AllocError> for Stop {
    ghost use Rattle.sc_tables.specs.declared.search.Stop.TheVariants as stops;
    ghost use Rattle.std.specs.Prelude.{◌≡◌};

    ghost from_gives = { λ _ stop. stop ≡ stops.Memory };

    fn from(_: AllocError) -> Stop {
        Stop::Memory
    }
}

impl<T: Drop> From<AllocFailed<T>> for Stop {
    ghost use Rattle.sc_tables.specs.declared.search.Stop.TheVariants as stops;
    ghost use Rattle.std.specs.Prelude.{◌≡◌};

    ghost from_gives = { λ _ stop. stop ≡ stops.Memory };

    fn from(_: AllocFailed<T>) -> Stop {
        Stop::Memory
    }
}

/// A round of a search.
#[derive(Clone, Copy, Debug)]
pub(crate) struct Round {
    /// Where the walks begin.
    pub(crate) start: usize,
    /// How many steps the new walks have at most.
    pub(crate) steps: usize,
    /// The new walks go on from those whose numbers are from this one..
    pub(crate) fresh: usize,
    /// .. to below this one.
    pub(crate) end: usize,
}

/// Whether a total is below another.
pub(crate) fn is_below<W: Weight>(total: &W, bound: &W) -> bool
    ensures { result ≡ is_lt (levels_cmp (W.levels total.now) (W.levels bound.now)) }
{
    total.compare(bound).is_lt()
}

/// The walk of a node with a step to a position, if there is such a step.
fn with_step<W: Weight>(
    nodes: &[Node<W>],
    prices: &StepPrices<W>,
    node: usize,
    to: usize,
) -> Result<Option<Candidate<W>>, Stop>
    requires node { node < length nodes.now }
    requires to { to < prices.now.side }
    requires placed { ArePlaced prices.now nodes.now }
    ensures found { IfOk result (λ o. IfSome o (λ b. (b.node ≡ node) × IsCandidate W.levels prices.now nodes.now to b)) }
    ensures none { IfOk result (λ o. IfNone o (HasNoStep prices.now nodes.now node to)) }
    ensures stops { IfErr result (IsStop W.levels prices.now nodes.now (node + 1) to) }
{
    let here = nodes[node];
    let Some(price) = prices.entry(here.place, to) else {
        return Ok(None);
    };
    match here.total.plus(&price) {
        Ok(total) => Ok(Some(Candidate { node, total })),
        Err(wide) => Err(Stop::Wide { node, to, wide }),
    }
}

/// The cheaper of two candidates, if there is any.
fn cheaper<W: Weight>(
    best: Option<Candidate<W>>,
    next: Option<Candidate<W>>,
) -> Option<Candidate<W>>
    ensures one { (result ≡ next) ⊎ (result ≡ best) }
    ensures below_next { IfSome next (λ b. Under W.levels result (W.levels b.total)) }
    ensures below_best { IfSome best (λ b. Under W.levels result (W.levels b.total)) }
{
    let (Some(old), Some(new)) = (best, next) else {
        return best.or(next);
    };
    if is_below(&new.total, &old.total) {
        next
    } else {
        best
    }
}

/// The cheapest walk with a step to a position, over the walks whose numbers are from `fresh` to below `end`.
fn best_into<W: Weight>(
    nodes: &[Node<W>],
    prices: &StepPrices<W>,
    fresh: usize,
    end: usize,
    to: usize,
) -> Result<Option<Candidate<W>>, Stop>
    requires end { end ≤ length nodes.now }
    requires to { to < prices.now.side }
    requires placed { ArePlaced prices.now nodes.now }
    ensures found { IfOk result (λ o. IfSome o (λ b. (b.node < end) × IsCandidate W.levels prices.now nodes.now to b)) }
    ensures under_each { IfOk result (UnderEach W.levels prices.now nodes.now fresh end to) }
    ensures stops { IfErr result (IsStop W.levels prices.now nodes.now end to) }
{
    let mut best = None;
    for node in fresh..end {
        best = cheaper(best, with_step(nodes, prices, node, to)?);
    }
    Ok(best)
}

/// The number of the cheapest new walk that a step takes back to the start for less than the threshold, if there is
/// one.
pub(crate) fn closing<W: Weight>(
    nodes: &[Node<W>],
    prices: &StepPrices<W>,
    threshold: &W,
    fresh: usize,
    start: usize,
) -> Result<Option<usize>, Stop>
    requires start { start < prices.now.side }
    requires placed { ArePlaced prices.now nodes.now }
    ensures closes { IfOk result (λ o. IfSome o (Closes W.levels prices.now nodes.now (W.levels threshold.now) start)) }
    ensures reach { IfOk result (λ o. IfNone o (AllReach W.levels prices.now nodes.now (W.levels threshold.now) fresh start)) }
    ensures stops { IfErr result (IsStop W.levels prices.now nodes.now (length nodes.now) start) }
{
    match best_into(nodes, prices, fresh, nodes.len(), start)? {
        Some(best) if is_below(&best.total, threshold) => Ok(Some(best.node)),
        _ => Ok(None),
    }
}

/// Whether a total is below that of a walk, if there is one.
fn is_better<W: Weight>(nodes: &[Node<W>], entry: Option<usize>, total: &W) -> bool
    requires { (n : ℕ) → entry ≡ Some n → n < length nodes.now }
    ensures better { result ≡ true → (n : ℕ) (x : _) → entry ≡ Some n → slice_get nodes.now n ≡ Some x → IsBelow (W.levels total.now) (W.levels x.total) }
    ensures kept { result ≡ false → (n : ℕ) × (x : _) × (entry ≡ Some n) × (slice_get nodes.now n ≡ Some x) × IsAtMost (W.levels x.total) (W.levels total.now) }
{
    match entry {
        Some(node) => is_below(total, &nodes[node].total),
        None => true,
    }
}

/// The entry of a position after a round more: where a new walk with a step to it is cheaper than its entry, that one.
fn next_entry<W: Weight>(
    nodes: &mut Vec<Node<W>>,
    prices: &StepPrices<W>,
    round: Round,
    place: usize,
    entry: Option<usize>,
) -> Result<Option<usize>, Stop>
    requires place { place < prices.now.side }
    requires growing { IsGrowing W.levels prices.now round.start round.steps round.end nodes.old.items }
    requires entry { IsEnd nodes.old.items round.end place entry }
    ensures growing { IsGrowing W.levels prices.now round.start round.steps round.end nodes.new.items }
    ensures grows { Grows nodes.old.items nodes.new.items }
    ensures next { IfOk result (IsNext W.levels prices.now nodes.new.items round.fresh round.end round.start place entry) }
    ensures stops { IfErr result (IsStop W.levels prices.now nodes.new.items round.end place) }
{
    if place == round.start {
        return Ok(entry);
    }
    let walks = nodes.as_slice();
    let Some(best) = best_into(walks, prices, round.fresh, round.end, place)? else {
        return Ok(entry);
    };
    if !is_better(walks, entry, &best.total) {
        return Ok(entry);
    }
    let node = nodes.len();
    nodes.push(Node {
        place,
        before: best.node,
        steps: round.steps,
        total: best.total,
    })?;
    Ok(Some(node))
}

/// The entries of all positions after a round more.
pub(crate) fn next_table<W: Weight>(
    nodes: &mut Vec<Node<W>>,
    table: &[Option<usize>],
    next: &mut Vec<Option<usize>>,
    prices: &StepPrices<W>,
    round: Round,
) -> Result<(), Stop>
    requires end { round.end ≡ length nodes.old.items }
    requires growing { IsGrowing W.levels prices.now round.start round.steps round.end nodes.old.items }
    requires len { length table.now ≡ prices.now.side }
    requires entries { AreEnds nodes.old.items table.now }
    ensures growing { IsGrowing W.levels prices.now round.start round.steps round.end nodes.new.items }
    ensures grows { Grows nodes.old.items nodes.new.items }
    ensures len { OnOk result (length next.new.items ≡ prices.now.side) }
    ensures next { OnOk result ((j : ℕ) → j < prices.now.side → IsNext W.levels prices.now nodes.new.items round.fresh round.end round.start j (get_or table.now j None) (get_or next.new.items j None)) }
    ensures stops { IfErr result (λ stop. (j : ℕ) × (j < prices.now.side) × IsStop W.levels prices.now nodes.new.items round.end j stop) }
{
    next.clear();
    for (place, entry) in table.iter().enumerate() {
        next.push(next_entry(nodes, prices, round, place, *entry)?)?;
    }
    Ok(())
}
