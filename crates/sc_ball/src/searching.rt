//! The search for the corners of a quadrant.

ghost use Rattle.std.specs.Prelude.{◌≡◌, ◌↔◌, ◌⊎◌, ℕ, suc, false, ◌<◌, ◌≤◌, [], ◌∷◌, map, length};
ghost use Rattle.std.specs.Prelude.{IsTrue, IfOk, IfErr, OnOk, OnErr};
ghost use Rattle.std.specs.List.{insert};
ghost use Rattle.sc_theory.specs.Chains.{Chain as AnyChain};
ghost use Rattle.sc_cone.specs.declared.Quadrant.{Quadrant as AnyQuadrant};
ghost use Rattle.sc_cone.specs.Directions.{first_end, last_end};
ghost use Rattle.sc_cone.specs.Searches.{reached, IsOpen, IsGap, IsNext};
ghost use Rattle.sc_crossing.specs.Lengths.{IsLight};
ghost use Rattle.sc_crossing.specs.Neighbours.{reached_of};
ghost use Rattle.sc_ball.specs.inside.Neighbours.{IsClosed};
ghost use Rattle.sc_ball.specs.Solved.{seen};
ghost use Rattle.sc_ball.specs.inside.Solved.{IsSolvedIn};
ghost use Rattle.sc_ball.specs.inside.Searched.{SpanPlane, IsSearchedTo, IsEntryBetween, IsStopBetween};
ghost use Rattle.sc_ball.specs.Faults.{AreOpenIn, IsUnsolved, IsUncrossed, IsBallFault, is_memory};

use crate::fault::BallFault;
use crate::solved::{Solved, check_chain, solved_at};
use sc_chain::Chain;
use sc_cone::{Direction, Quadrant};
use sc_crossing::{NextFault, Reached, is_tight_at, next_direction};
use sc_solve::SolveFault;
use std::alloc::{AllocError, Global};

/// Why there is no entry between two neighbours of a search.
#[derive(Drop)]
enum Stop {
    /// The next direction isn't solved.
    Solve {
        direction: Direction,
        fault: SolveFault,
    },
    /// There is no next direction that is short enough.
    Next(NextFault),
}

/// The end of a quadrant that its search begins with.
fn first_end(quadrant: Quadrant) -> Direction
    ensures { result ≡ first_end quadrant }
{
    match quadrant {
        Quadrant::Lower => Direction { s: 0, t: -1 },
        Quadrant::Upper => Direction { s: 1, t: 0 },
    }
}

/// The end of a quadrant that its search ends with.
fn last_end(quadrant: Quadrant) -> Direction
    ensures { result ≡ last_end quadrant }
{
    match quadrant {
        Quadrant::Lower => Direction { s: 1, t: 0 },
        Quadrant::Upper => Direction { s: 0, t: 1 },
    }
}

/// Whether it is for want of memory.
fn is_memory(fault: &SolveFault) -> bool
    ensures { result ≡ is_memory fault.now }
{
    matches!(fault, SolveFault::Memory)
}

/// The fault of a direction that isn't solved, after this search.
fn unsolved(
    search: Vec<Reached>,
    quadrant: Quadrant,
    direction: Direction,
    fault: SolveFault,
) -> BallFault
    ensures { (first second : AnyChain) (budget : ℕ) →
        (is_memory fault ≡ false →
        IsUnsolved quadrant first second budget (map reached_of search.items) direction fault)
        → IsBallFault first second budget result }
{
    if is_memory(&fault) {
        BallFault::Memory
    } else {
        BallFault::Solve {
            search,
            lower: quadrant == Quadrant::Lower,
            direction,
            fault,
        }
    }
}

/// The fault of two neighbours of this search that have no next direction, or none that is short enough.
fn uncrossed(search: Vec<Reached>, from: Direction, to: Direction, fault: NextFault) -> BallFault
    ensures { (q : AnyQuadrant) (first second : AnyChain) (budget : ℕ) →
        IsUncrossed q first second (map reached_of search.items) from to fault
        → IsBallFault first second budget result }
{
    match fault {
        NextFault::Cross { place, x, y } => BallFault::Cross {
            search,
            from,
            to,
            place,
            x,
            y,
        },
        NextFault::Length { s, t } => BallFault::Length {
            search,
            from,
            to,
            s,
            t,
        },
    }
}

/// The fault of a stop between two neighbours of this search.
fn stopped(
    search: Vec<Reached>,
    quadrant: Quadrant,
    from: Direction,
    to: Direction,
    stop: Stop,
) -> BallFault
    ensures { (first second : AnyChain) (budget place : ℕ) →
        let rs = map reached_of search.items in
        AreOpenIn quadrant first second rs place
        → (reached rs place).direction ≡ from → (reached rs (suc place)).direction ≡ to
        → IsStopBetween quadrant first second budget (reached rs place) (reached rs (suc place)) stop
        → IsBallFault first second budget result }
{
    match stop {
        Stop::Solve { direction, fault } => unsolved(search, quadrant, direction, fault),
        Stop::Next(fault) => uncrossed(search, from, to, fault),
    }
}

/// The entry of an end of a quadrant.
fn solved_end(
    alloc: Global,
    quadrant: Quadrant,
    first: &Chain,
    second: &Chain,
    end: Direction,
    budget: u32,
) -> Result<Solved, BallFault>
    requires plane { SpanPlane first.now second.now }
    requires budget { 0 < budget }
    requires end { (end ≡ first_end quadrant) ⊎ (end ≡ last_end quadrant) }
    ensures direction { IfOk result (λ s. s.reached.direction ≡ end) }
    ensures solved { IfOk result (IsSolvedIn quadrant first.now second.now) }
    ensures stopped { IfErr result (IsBallFault first.now second.now budget) }
{
    check_chain(first);
    check_chain(second);
    match solved_at(alloc, quadrant, first, second, end, budget) {
        Ok(solved) => Ok(solved),
        Err(fault) => Err(unsolved(Vec::new(alloc), quadrant, end, fault)),
    }
}

/// Two entries in their order.
fn pair(alloc: Global, one: Solved, other: Solved) -> Result<Vec<Solved>, AllocError>
    ensures { IfOk result (λ entries. entries.items ≡ one ∷ other ∷ []) }
{
    let entries = Vec::from_array(alloc, [one, other])?;
    Ok(entries)
}

/// The entries of both ends of a quadrant.
fn ends(
    alloc: Global,
    quadrant: Quadrant,
    first: &Chain,
    second: &Chain,
    budget: u32,
) -> Result<Vec<Solved>, BallFault>
    requires plane { SpanPlane first.now second.now }
    requires budget { 0 < budget }
    ensures two { IfOk result (λ entries. length entries.items ≡ 2) }
    ensures searched { IfOk result (λ entries. IsSearchedTo quadrant first.now second.now entries.items 1) }
    ensures stopped { IfErr result (IsBallFault first.now second.now budget) }
{
    let (from, to) = (first_end(quadrant), last_end(quadrant));
    let one = solved_end(alloc, quadrant, first, second, from, budget)?;
    let other = solved_end(alloc, quadrant, first, second, to, budget)?;
    let entries = pair(alloc, one, other)?;
    Ok(entries)
}

/// Whether the list of one of two neighbours is tight at the other's direction.
fn are_closed(first: &Chain, second: &Chain, from: &Solved, to: &Solved) -> bool
    requires from { IsLight first.now second.now from.now.reached.direction }
    requires to { IsLight first.now second.now to.now.reached.direction }
    ensures { (q : AnyQuadrant) → IsSolvedIn q first.now second.now from.now → IsSolvedIn q first.now second.now to.now
        → (IsTrue result ↔ IsClosed q first.now second.now (seen from.now) (seen to.now)) }
{
    let (here, there) = (&from.reached, &to.reached);
    is_tight_at(first, second, &here.list, there.direction, &to.value)
        || is_tight_at(first, second, &there.list, here.direction, &from.value)
}

/// The entry of the next direction between two open neighbours.
fn next_entry(
    alloc: Global,
    quadrant: Quadrant,
    first: &Chain,
    second: &Chain,
    from: &Reached,
    to: &Reached,
    budget: u32,
) -> Result<Solved, Stop>
    requires plane { SpanPlane first.now second.now }
    requires budget { 0 < budget }
    requires gap { IsGap quadrant first.now second.now (reached_of from.now) (reached_of to.now) }
    ensures direction { IfOk result (λ s.
        IsNext quadrant first.now second.now (reached_of from.now) (reached_of to.now) s.reached.direction) }
    ensures solved { IfOk result (IsSolvedIn quadrant first.now second.now) }
    ensures stopped { IfErr result
        (IsStopBetween quadrant first.now second.now budget (reached_of from.now) (reached_of to.now)) }
{
    check_chain(first);
    check_chain(second);
    let direction = match next_direction(quadrant, first, second, from, to) {
        Ok(direction) => direction,
        Err(fault) => return Err(Stop::Next(fault)),
    };
    match solved_at(alloc, quadrant, first, second, direction, budget) {
        Ok(solved) => Ok(solved),
        Err(fault) => Err(Stop::Solve { direction, fault }),
    }
}

/// The entry between two neighbours. There is none where they are closed.
fn entry_between(
    alloc: Global,
    quadrant: Quadrant,
    first: &Chain,
    second: &Chain,
    from: &Solved,
    to: &Solved,
    budget: u32,
) -> Result<Option<Solved>, Stop>
    requires plane { SpanPlane first.now second.now }
    requires budget { 0 < budget }
    requires from { IsSolvedIn quadrant first.now second.now from.now }
    requires to { IsSolvedIn quadrant first.now second.now to.now }
    requires gap { IsOpen quadrant first.now second.now (seen from.now) (seen to.now)
        → IsGap quadrant first.now second.now (seen from.now) (seen to.now) }
    ensures entry { IfOk result (IsEntryBetween quadrant first.now second.now (seen from.now) (seen to.now)) }
    ensures opened { OnErr result (IsOpen quadrant first.now second.now (seen from.now) (seen to.now)) }
    ensures stopped { IfErr result
        (IsStopBetween quadrant first.now second.now budget (seen from.now) (seen to.now)) }
{
    if are_closed(first, second, from, to) {
        return Ok(None);
    }
    let entry = next_entry(
        alloc,
        quadrant,
        first,
        second,
        &from.reached,
        &to.reached,
        budget,
    )?;
    Ok(Some(entry))
}

/// Puts an entry in between.
fn put_in(entries: &mut Vec<Solved>, place: usize, entry: Solved) -> Result<(), AllocError>
    requires { place ≤ length entries.old.items }
    ensures { OnOk result (entries.new.items ≡ insert entries.old.items place entry) }
{
    entries.insert(place, entry)?;
    Ok(())
}

/// The search of these entries.
fn shown(alloc: Global, entries: Vec<Solved>) -> Result<Vec<Reached>, AllocError>
    ensures { IfOk result (λ search. search.items ≡ map (λ s. s.reached) entries.items) }
{
    entries
        .into_iter()
        .map(|entry| entry.reached)
        .collect(alloc)
}

/// The search of a quadrant: first its two ends, and then each next direction between two neighbours whose lists are
/// each not tight at the other's direction, until there are none.
pub(crate) fn search(
    alloc: Global,
    quadrant: Quadrant,
    first: &Chain,
    second: &Chain,
    budget: u32,
) -> Result<Vec<Solved>, BallFault>
    requires plane { SpanPlane first.now second.now }
    requires budget { 0 < budget }
    ensures searched { IfOk result (λ entries.
        IsSearchedTo quadrant first.now second.now entries.items (length entries.items)) }
    ensures stopped { IfErr result (IsBallFault first.now second.now budget) }
{
    check_chain(first);
    check_chain(second);
    let mut entries = ends(alloc, quadrant, first, second, budget)?;
    let mut place = 0;
    while place + 1 < entries.len() {
        let (here, there) = (&entries[place], &entries[place + 1]);
        let (from, to) = (here.reached.direction, there.reached.direction);
        match entry_between(alloc, quadrant, first, second, here, there, budget) {
            Ok(entry) => match entry {
                Some(entry) => put_in(&mut entries, place + 1, entry)?,
                None => place += 1,
            },
            Err(stop) => {
                let search = shown(alloc, entries)?;
                return Err(stopped(search, quadrant, from, to, stop));
            }
        }
    }
    Ok(entries)
}
