//! The texts of a direction that isn't solved.

ghost use Rattle.std.specs.Prelude.{◌≡◌, ◌+◌, ◌≤◌, ◌++◌, length, IfOk, OnOk};
ghost use Rattle.sc_theory.specs.Chains.{positions};
ghost use Rattle.sc_chain.specs.declared.limits.TheConstants.{MAX_WORDS, MAX_POSITIONS};
ghost use Rattle.sc_line.specs.Lines.{text_of};
ghost use Rattle.sc_cone.specs.Cones.{chain_of};
ghost use Rattle.sc_crossing.specs.Lengths.{IsLight};
ghost use Rattle.sc_ball_refusal.specs.Texts as texts;

use crate::search::{Search, print_direction, print_search};
use sc_chain::{Chain, Pivot, Polygon};
use sc_cone::Direction;
use sc_crossing::chain_at;
use sc_fraction::Frac;
use sc_refusal::{print_budget_body, print_sides_body, print_wide_body};
use sc_rows::WideAt;
use std::alloc::{AllocError, Global};

/// Appends what stands before the body: a heading, the search and the direction.
fn print_front(
    heading: &[u8],
    search: &Search,
    direction: Direction,
    out: &mut Vec<u8>,
) -> Result<(), AllocError>
    requires words { length search.now.first.now + length search.now.second.now ≤ MAX_WORDS }
    requires positions { positions search.now.first.now + positions search.now.second.now ≤ MAX_POSITIONS }
    ensures { OnOk result (out.new.items ≡ out.old.items
        ++ text_of (texts.unsolved_front heading.now (texts.search_said search.now) direction)) }
{
    print_search(heading, search, out)?;
    print_direction(b"direction", direction, out)
}

/// The chain of a direction in the search's quadrant.
fn chain_in(alloc: Global, search: &Search, direction: Direction) -> Result<Chain, AllocError>
    requires words { length search.now.first.now + length search.now.second.now ≤ MAX_WORDS }
    requires positions { positions search.now.first.now + positions search.now.second.now ≤ MAX_POSITIONS }
    requires light { IsLight search.now.first.now search.now.second.now direction }
    ensures { IfOk result (λ c. c ≡ chain_of search.now.quadrant search.now.first.now search.now.second.now direction) }
{
    chain_at(
        alloc,
        search.quadrant,
        search.first,
        search.second,
        direction,
    )
}

/// The text of a direction at which the solver's pivots are used up while a polygon improves. The direction's chain is
/// no longer than a chain may be.
pub fn budget_text(
    alloc: Global,
    search: &Search,
    direction: Direction,
    journal: &[Pivot],
    improving: &Polygon,
) -> Result<Vec<u8>, AllocError>
    requires words { length search.now.first.now + length search.now.second.now ≤ MAX_WORDS }
    requires positions { positions search.now.first.now + positions search.now.second.now ≤ MAX_POSITIONS }
    requires light { IsLight search.now.first.now search.now.second.now direction }
    ensures { IfOk result (λ text. text.items
        ≡ texts.budget_text (texts.search_said search.now) direction journal.now improving.now) }
{
    let chain = chain_in(alloc, search, direction)?;
    let mut text = Vec::new(alloc);
    print_front(b"scallop refused budget", search, direction, &mut text)?;
    print_budget_body(&chain, journal, improving, &mut text)?;
    Ok(text)
}

/// The text of a direction at which the solver came to an operation that is too wide. The direction's chain is no
/// longer than a chain may be.
pub fn wide_text(
    alloc: Global,
    search: &Search,
    direction: Direction,
    journal: &[Pivot],
    at: &WideAt,
) -> Result<Vec<u8>, AllocError>
    requires words { length search.now.first.now + length search.now.second.now ≤ MAX_WORDS }
    requires positions { positions search.now.first.now + positions search.now.second.now ≤ MAX_POSITIONS }
    requires light { IsLight search.now.first.now search.now.second.now direction }
    ensures { IfOk result (λ text. text.items
        ≡ texts.wide_text (texts.search_said search.now) direction journal.now at.now) }
{
    let chain = chain_in(alloc, search, direction)?;
    let mut text = Vec::new(alloc);
    print_front(b"scallop refused wide", search, direction, &mut text)?;
    print_wide_body(&chain, journal, at, &mut text)?;
    Ok(text)
}

/// The text of a direction at which the solver's surface would have too many sides: by a part with its value, the least
/// common multiple of the denominators before it, and its own denominator. The direction's chain is no longer than a
/// chain may be.
pub fn sides_text(
    alloc: Global,
    search: &Search,
    direction: Direction,
    journal: &[Pivot],
    part: &Polygon,
    value: &Frac,
    so_far: u32,
    next: i128,
) -> Result<Vec<u8>, AllocError>
    requires words { length search.now.first.now + length search.now.second.now ≤ MAX_WORDS }
    requires positions { positions search.now.first.now + positions search.now.second.now ≤ MAX_POSITIONS }
    requires light { IsLight search.now.first.now search.now.second.now direction }
    ensures { IfOk result (λ text. text.items
        ≡ texts.sides_text (texts.search_said search.now) direction journal.now part.now value.now so_far next) }
{
    let chain = chain_in(alloc, search, direction)?;
    let mut text = Vec::new(alloc);
    print_front(b"scallop refused sides", search, direction, &mut text)?;
    print_sides_body(&chain, journal, part, value, so_far, next, &mut text)?;
    Ok(text)
}
