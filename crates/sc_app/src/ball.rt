//! The command `ball`.

ghost use Rattle.std.specs.Prelude.{◌≡◌, ℕ, ◌≤◌, ◌+◌, ◌<◌, ◌^◌, length, map, take, drop, IfOk, IfErr, OnOk};
ghost use Rattle.std.specs.List.{All};
ghost use Rattle.sc_theory.specs.Chains.{IsBalanced, positions};
ghost use Rattle.sc_words.specs.ChainText.{IsRawLine};
ghost use Rattle.sc_chain.specs.declared.limits.TheConstants.{MAX_WORDS, MAX_POSITIONS};
ghost use Rattle.sc_reduce.specs.Lines.{IsWithin, IsExcess, chain_of, letters_of};
ghost use Rattle.sc_text.specs.Surfaces.{IsChainInRange};
ghost use Rattle.sc_cone.specs.Fans.{quadrant_from};
ghost use Rattle.sc_cone.specs.Searches.{reached};
ghost use Rattle.sc_crossing.specs.Lengths.{IsLight};
ghost use Rattle.sc_crossing.specs.Neighbours.{reached_of};
ghost use Rattle.sc_fan.specs.Fans.{IsFanInRange, fan_text};
ghost use Rattle.sc_fan.specs.FanRead.{fan_said};
ghost use Rattle.sc_ball.specs.Faults.{IsBallFault, quadrant_of};
ghost use Rattle.sc_ball_refusal.specs.Texts.{search_said};
ghost use Rattle.sc_app.specs.Answer.{status_of, text_of};
ghost use Rattle.sc_app.specs.Ball.{BallResponds, IsBallOf, IsBallOfLines, IsToldOfDirection, Shows};

use crate::answer::Answer;
use crate::infinite::infinite_line;
use crate::limits::MAX_CHAIN_BYTES;
use sc_ball::{BallFault, ball};
use sc_ball_refusal::{Search, budget_text, cross_text, length_text, sides_text, wide_text};
use sc_chain::{Chain, ChainFault, RawLine};
use sc_cone::{Direction, Quadrant};
use sc_crossing::Reached;
use sc_fan::Fan;
use sc_reduce::reduce_lines;
use sc_solve::SolveFault;
use sc_two::read_two;
use std::alloc::{AllocError, Global};

/// The quadrant of a search: the one that begins with its first direction.
fn quadrant_of_search(search: &[Reached]) -> Quadrant
    ensures { result ≡ quadrant_from (reached (map reached_of search.now) 0).direction.t }
{
    match search {
        [entry, ..] if entry.direction.t < 0 => Quadrant::Lower,
        _ => Quadrant::Upper,
    }
}

fn quadrant_of(lower: bool) -> Quadrant
    ensures { result ≡ quadrant_of lower }
{
    if lower {
        Quadrant::Lower
    } else {
        Quadrant::Upper
    }
}

/// The answer where a direction isn't solved.
fn unsolved(
    alloc: Global,
    search: &Search,
    direction: Direction,
    fault: SolveFault,
) -> Result<Answer, AllocError>
    requires words { length search.now.first.now + length search.now.second.now ≤ MAX_WORDS }
    requires positions { positions search.now.first.now + positions search.now.second.now ≤ MAX_POSITIONS }
    requires light { IsLight search.now.first.now search.now.second.now direction }
    ensures { IfOk result (λ answer.
        IsToldOfDirection (search_said search.now) direction fault (status_of answer) (text_of answer)) }
{
    match fault {
        SolveFault::Budget { journal, improving } => Ok(Answer::OverBudget(budget_text(
            alloc,
            search,
            direction,
            journal.as_slice(),
            &improving,
        )?)),
        SolveFault::Wide { journal, at } => Ok(Answer::TooWide(wide_text(
            alloc,
            search,
            direction,
            journal.as_slice(),
            &at,
        )?)),
        SolveFault::Sides {
            journal,
            part,
            so_far,
            next,
        } => Ok(Answer::ManySides(sides_text(
            alloc,
            search,
            direction,
            journal.as_slice(),
            &part.polygon,
            &part.value,
            so_far,
            next,
        )?)),
        SolveFault::Memory => Err(AllocError),
    }
}

/// The answer where the search for the ball stopped.
fn stopped(
    alloc: Global,
    first: &Chain,
    second: &Chain,
    fault: BallFault,
) -> Result<Answer, AllocError>
    requires words { length first.now + length second.now ≤ MAX_WORDS }
    requires positions { positions first.now + positions second.now ≤ MAX_POSITIONS }
    requires evidence { (pivots : ℕ) × IsBallFault first.now second.now pivots fault }
    ensures { (pivots : ℕ) → IsBallFault first.now second.now pivots fault
        → IfOk result (λ answer. Shows first.now second.now pivots fault (status_of answer) (text_of answer)) }
{
    match fault {
        BallFault::Solve {
            search,
            lower,
            direction,
            fault,
        } => {
            let search = Search {
                quadrant: quadrant_of(lower),
                first,
                second,
                reached: search.as_slice(),
            };
            unsolved(alloc, &search, direction, fault)
        }
        BallFault::Cross {
            search,
            from,
            to,
            place,
            x,
            y,
        } => {
            let search = Search {
                quadrant: quadrant_of_search(search.as_slice()),
                first,
                second,
                reached: search.as_slice(),
            };
            Ok(Answer::TooWide(cross_text(alloc, &search, from, to, place, &x, &y)?))
        }
        BallFault::Length {
            search,
            from,
            to,
            s,
            t,
        } => {
            let search = Search {
                quadrant: quadrant_of_search(search.as_slice()),
                first,
                second,
                reached: search.as_slice(),
            };
            Ok(Answer::ManySides(length_text(alloc, &search, from, to, s, t)?))
        }
        BallFault::Memory => Err(AllocError),
    }
}

/// The text of a fan.
fn fan_text(alloc: Global, fan: &Fan) -> Result<Vec<u8>, AllocError>
    requires { IsFanInRange (fan_said fan.now) }
    ensures { IfOk result (λ text. text.items ≡ fan_text (fan_said fan.now)) }
{
    let mut text = Vec::new(alloc);
    fan.print(&mut text)?;
    Ok(text)
}

/// The answer for two balanced chains.
fn ball_between(
    alloc: Global,
    first: &Chain,
    second: &Chain,
    pivots: u32,
) -> Result<Answer, AllocError>
    requires first_balanced { IsBalanced first.now }
    requires second_balanced { IsBalanced second.now }
    requires first_in_range { IsChainInRange first.now }
    requires second_in_range { IsChainInRange second.now }
    requires words { length first.now + length second.now ≤ MAX_WORDS }
    requires positions { positions first.now + positions second.now ≤ MAX_POSITIONS }
    requires some_pivots { 1 ≤ pivots }
    ensures { IfOk result (λ answer. IsBallOf pivots first.now second.now (status_of answer) (text_of answer)) }
{
    match ball(alloc, first, second, pivots) {
        Ok(fan) => Ok(Answer::Text(fan_text(alloc, &fan)?)),
        Err(fault) => stopped(alloc, first, second, fault),
    }
}

/// The answer for two chains that are together within the limits.
fn answer_chains(
    alloc: Global,
    first: &Chain,
    second: &Chain,
    pivots: u32,
) -> Result<Answer, AllocError>
    requires first_in_range { IsChainInRange first.now }
    requires second_in_range { IsChainInRange second.now }
    requires words { length first.now + length second.now ≤ MAX_WORDS }
    requires positions { positions first.now + positions second.now ≤ MAX_POSITIONS }
    requires some_pivots { 1 ≤ pivots }
    ensures { IfOk result (λ answer. IsBallOf pivots first.now second.now (status_of answer) (text_of answer)) }
{
    if let Some((generator, total)) = first.first_unbalanced() {
        return Ok(Answer::Text(infinite_line(alloc, b"infinite first", generator, total)?));
    }
    if let Some((generator, total)) = second.first_unbalanced() {
        return Ok(Answer::Text(infinite_line(alloc, b"infinite second", generator, total)?));
    }
    ball_between(alloc, first, second, pivots)
}

/// The chain of lines that are known to be within the limits.
fn chain_within(alloc: Global, lines: &[RawLine]) -> Result<Chain, AllocError>
    requires ranges { All IsRawLine lines.now }
    requires letters { letters_of lines.now < 2 ^ 32 }
    requires within { IsWithin (chain_of lines.now) }
    ensures { IfOk result (λ c. c ≡ chain_of lines.now) }
{
    match reduce_lines(alloc, lines) {
        Ok(chain) => Ok(chain),
        Err(fault) => match fault {
            ChainFault::Memory => Err(AllocError),
            // The lines are within the limits, as the contract demands.
            _ => unreachable!(),
        },
    }
}

/// The answer for lines, the first `count` of which are the first chain's, where both chains are within the limits.
fn answer_within(
    alloc: Global,
    lines: &[RawLine],
    count: usize,
    pivots: u32,
) -> Result<Answer, AllocError>
    requires count { count ≤ length lines.now }
    requires ranges { All IsRawLine lines.now }
    requires letters { letters_of lines.now < 2 ^ 32 }
    requires within { IsWithin (chain_of lines.now) }
    requires some_pivots { 1 ≤ pivots }
    ensures { IfOk result (λ answer.
        IsBallOf pivots (chain_of (take count lines.now)) (chain_of (drop count lines.now))
        (status_of answer) (text_of answer)) }
{
    let (first, second) = lines.split_at(count);
    let first = chain_within(alloc, first)?;
    let second = chain_within(alloc, second)?;
    answer_chains(alloc, &first, &second, pivots)
}

/// Tells the limit that the chain of all lines passes, if there is one.
fn limit_of(alloc: Global, lines: &[RawLine]) -> Result<(), ChainFault>
    requires ranges { All IsRawLine lines.now }
    requires letters { letters_of lines.now < 2 ^ 32 }
    ensures within { OnOk result (IsWithin (chain_of lines.now)) }
    ensures excess { IfErr result (IsExcess (chain_of lines.now)) }
{
    reduce_lines(alloc, lines)?;
    Ok(())
}

/// The answer for lines, the first `count` of which are the first chain's. The limits hold for both chains together, so
/// all lines are first reduced as one list.
fn answer_lines(
    alloc: Global,
    lines: &[RawLine],
    count: usize,
    pivots: u32,
) -> Result<Answer, AllocError>
    requires count { count ≤ length lines.now }
    requires ranges { All IsRawLine lines.now }
    requires letters { letters_of lines.now < 2 ^ 32 }
    requires some_pivots { 1 ≤ pivots }
    ensures { IfOk result (λ answer.
        IsBallOfLines pivots (take count lines.now) (drop count lines.now) (status_of answer) (text_of answer)) }
{
    match limit_of(alloc, lines) {
        Ok(()) => answer_within(alloc, lines, count, pivots),
        Err(ChainFault::ManyWords { count }) => Ok(Answer::ManyWords(count)),
        Err(ChainFault::ManyPositions { count }) => Ok(Answer::ManyPositions(count)),
        Err(ChainFault::Memory) => Err(AllocError),
        // The words are reduced, none is empty, and coefficients are too small for the chain to be too long.
        Err(_) => unreachable!(),
    }
}

/// Reads a text of two chains and answers their unit ball, where each direction is solved by at most so many pivots, or
/// why there is none.
pub fn answer_ball(alloc: Global, pivots: u32, input: &[u8]) -> Result<Answer, AllocError>
    requires few_bytes { length input.now ≤ MAX_CHAIN_BYTES }
    requires some_pivots { 1 ≤ pivots }
    ensures { IfOk result (λ answer. BallResponds pivots input.now (status_of answer) (text_of answer)) }
{
    let (mut lines, mut others) = match read_two(alloc, input) {
        Ok(two) => two,
        Err(fault) => return Answer::to_fault(fault),
    };
    let count = lines.len();
    lines.append(&mut others)?;
    answer_lines(alloc, lines.as_slice(), count, pivots)
}
