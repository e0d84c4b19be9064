//! The search for the corners of a quadrant as lines.

ghost use Rattle.std.specs.Prelude.{◌≡◌, ◌+◌, ◌≤◌, ◌++◌, ◌∷◌, length, map, IfOk, OnOk};
ghost use Rattle.std.specs.List.{flat_map};
ghost use Rattle.sc_theory.specs.Chains.{positions};
ghost use Rattle.sc_theory.specs.Prices.{pairs};
ghost use Rattle.sc_chain.specs.Faults.{IsSmallChain};
ghost use Rattle.sc_chain.specs.declared.limits.TheConstants.{MAX_WORDS, MAX_POSITIONS};
ghost use Rattle.sc_line.specs.Lines.{ended, text_of};
ghost use Rattle.sc_cone.specs.Cones.{quadrant_chain};
ghost use Rattle.sc_crossing.specs.Neighbours.{reached_of};
ghost use Rattle.sc_ball_refusal.specs.Texts as texts;
ghost use Rattle.sc_ball_refusal.specs.inside.Texts as inside;

use sc_certificate::print_list;
use sc_chain::Chain;
use sc_cone::{Direction, Quadrant};
use sc_crossing::{Reached, chain_at};
use sc_text::{Field, print_count_line, print_line};
use std::alloc::{AllocError, Global};

/// A search for the corners of a quadrant in the plane of two chains, as far as it came.
#[derive(Clone, Copy)]
pub struct Search<'a> {
    /// The quadrant.
    pub quadrant: Quadrant,
    /// The first chain.
    pub first: &'a Chain,
    /// The second chain. The two have together at most 32 words and 64 positions.
    pub second: &'a Chain,
    /// The directions in the order of turning left, each with a price list for the quadrant's chain.
    pub reached: &'a [Reached],
}

/// The direction of the second chain alone. The chains of all directions of a quadrant have the same pairs, since
/// weights don't matter to them.
const UP: Direction = Direction { s: 0, t: 1 };

/// What every chain keeps.
fn check_chain(chain: &Chain)
    ensures { IsSmallChain chain.now }
{
    let _words = chain.words();
}

/// A chain with the inverse pairs of the chain of a quadrant.
fn chain_of_quadrant(
    alloc: Global,
    quadrant: Quadrant,
    first: &Chain,
    second: &Chain,
) -> Result<Chain, AllocError>
    requires words { length first.now + length second.now ≤ MAX_WORDS }
    requires positions { positions first.now + positions second.now ≤ MAX_POSITIONS }
    ensures { IfOk result (λ chain. pairs chain ≡ pairs (quadrant_chain quadrant first.now second.now)) }
{
    check_chain(second);
    let chain = chain_at(alloc, quadrant, first, second, UP)?;
    Ok(chain)
}

/// Appends the line of a name and a direction.
pub(crate) fn print_direction(
    name: &[u8],
    direction: Direction,
    out: &mut Vec<u8>,
) -> Result<(), AllocError>
    ensures { OnOk result (out.new.items ≡ out.old.items ++ ended (texts.named_direction name.now direction)) }
{
    let numbers = [
        Field::Number(i128::from(direction.s)),
        Field::Number(i128::from(direction.t)),
    ];
    print_line(name, &numbers, out)
}

/// Appends the lines of directions with their lists for the chain.
fn print_reached(chain: &Chain, reached: &[Reached], out: &mut Vec<u8>) -> Result<(), AllocError>
    ensures { OnOk result (out.new.items ≡ out.old.items
        ++ flat_map (λ r. inside.reached_text (pairs chain.now) (reached_of r)) reached.now) }
{
    for entry in reached {
        print_direction(b"at", entry.direction, out)?;
        print_list(chain, &entry.list, out)?;
    }
    Ok(())
}

/// Appends a heading and the lines of the search.
pub(crate) fn print_search(
    heading: &[u8],
    search: &Search,
    out: &mut Vec<u8>,
) -> Result<(), AllocError>
    requires words { length search.now.first.now + length search.now.second.now ≤ MAX_WORDS }
    requires positions { positions search.now.first.now + positions search.now.second.now ≤ MAX_POSITIONS }
    ensures { OnOk result (out.new.items ≡ out.old.items
        ++ text_of (texts.front_lines heading.now (texts.search_said search.now))) }
{
    let chain = chain_of_quadrant(
        *out.allocator(),
        search.quadrant,
        search.first,
        search.second,
    )?;
    print_line(heading, &[], out)?;
    print_count_line(b"search", search.reached.len() as u64, out)?;
    print_reached(&chain, search.reached, out)?;
    Ok(())
}
