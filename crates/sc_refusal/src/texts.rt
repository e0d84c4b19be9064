//! The texts of refusals, whole, and their bodies, which follow a heading.

ghost use Rattle.std.specs.Prelude.{◌≡◌, ◌++◌, IfOk, OnOk};
ghost use Rattle.sc_line.specs.Lines.{text_of};
ghost use Rattle.sc_refusal.specs.Texts as texts;

use crate::lines::{print_sides_lines, print_solved, print_walk_line, print_wide_lines};
use sc_chain::{Chain, Pivot, Polygon};
use sc_fraction::Frac;
use sc_rows::WideAt;
use sc_text::print_line;
use std::alloc::{AllocError, Global};

/// Appends the body of the text of a solver whose pivots are used up while a polygon improves.
pub fn print_budget_body(
    chain: &Chain,
    journal: &[Pivot],
    improving: &Polygon,
    out: &mut Vec<u8>,
) -> Result<(), AllocError>
    ensures { OnOk result (out.new.items ≡ out.old.items ++ text_of (texts.budget_body chain.now journal.now improving.now)) }
{
    print_solved(chain, journal, out)?;
    print_walk_line(b"improving", improving.walk(), out)?;
    print_line(b"end", &[], out)
}

/// Appends the body of the text of a solver that came to an operation which is too wide.
pub fn print_wide_body(
    chain: &Chain,
    journal: &[Pivot],
    at: &WideAt,
    out: &mut Vec<u8>,
) -> Result<(), AllocError>
    ensures { OnOk result (out.new.items ≡ out.old.items ++ text_of (texts.wide_body chain.now journal.now at.now)) }
{
    print_solved(chain, journal, out)?;
    print_wide_lines(at, out)?;
    print_line(b"end", &[], out)
}

/// Appends the body of the text of a solver whose surface would have too many sides.
pub fn print_sides_body(
    chain: &Chain,
    journal: &[Pivot],
    part: &Polygon,
    value: &Frac,
    so_far: u32,
    next: i128,
    out: &mut Vec<u8>,
) -> Result<(), AllocError>
    ensures { OnOk result (out.new.items ≡ out.old.items
        ++ text_of (texts.sides_body chain.now journal.now part.now value.now so_far next)) }
{
    print_solved(chain, journal, out)?;
    print_walk_line(b"part", part.walk(), out)?;
    print_sides_lines(value, so_far, next, chain.length(), out)?;
    print_line(b"end", &[], out)
}

/// The text of a solver whose pivots are used up while a polygon improves.
pub fn budget_text(
    alloc: Global,
    chain: &Chain,
    journal: &[Pivot],
    improving: &Polygon,
) -> Result<Vec<u8>, AllocError>
    ensures { IfOk result (λ text. text.items ≡ texts.budget_text chain.now journal.now improving.now) }
{
    let mut text = Vec::new(alloc);
    print_line(b"scallop refused budget", &[], &mut text)?;
    print_budget_body(chain, journal, improving, &mut text)?;
    Ok(text)
}

/// The text of a solver that came to an operation which is too wide.
pub fn wide_text(
    alloc: Global,
    chain: &Chain,
    journal: &[Pivot],
    at: &WideAt,
) -> Result<Vec<u8>, AllocError>
    ensures { IfOk result (λ text. text.items ≡ texts.wide_text chain.now journal.now at.now) }
{
    let mut text = Vec::new(alloc);
    print_line(b"scallop refused wide", &[], &mut text)?;
    print_wide_body(chain, journal, at, &mut text)?;
    Ok(text)
}

/// The text of a solver whose surface would have too many sides: by the part with its value, the least common
/// multiple of the denominators before it, and its own denominator.
pub fn sides_text(
    alloc: Global,
    chain: &Chain,
    journal: &[Pivot],
    part: &Polygon,
    value: &Frac,
    so_far: u32,
    next: i128,
) -> Result<Vec<u8>, AllocError>
    ensures { IfOk result (λ text. text.items ≡ texts.sides_text chain.now journal.now part.now value.now so_far next) }
{
    let mut text = Vec::new(alloc);
    print_line(b"scallop refused sides", &[], &mut text)?;
    print_sides_body(chain, journal, part, value, so_far, next, &mut text)?;
    Ok(text)
}
