//! The texts of two neighbours between which there is no next direction.

ghost use Rattle.std.specs.Prelude.{◌≡◌, ◌+◌, ◌≤◌, ◌++◌, length, IfOk, OnOk};
ghost use Rattle.sc_theory.specs.Chains.{positions};
ghost use Rattle.sc_chain.specs.declared.limits.TheConstants.{MAX_WORDS, MAX_POSITIONS};
ghost use Rattle.sc_line.specs.Lines.{ended, text_of};
ghost use Rattle.sc_ball_refusal.specs.Texts as texts;

use crate::places::place_name;
use crate::search::{Search, print_search};
use sc_cone::Direction;
use sc_crossing::CrossPlace;
use sc_fraction::Frac;
use sc_text::{Field, print_line};
use std::alloc::{AllocError, Global};

/// Appends the line of two neighbours.
fn print_ends(from: Direction, to: Direction, out: &mut Vec<u8>) -> Result<(), AllocError>
    ensures { OnOk result (out.new.items ≡ out.old.items ++ ended (texts.ends_line from to)) }
{
    let numbers = [
        Field::Number(i128::from(from.s)),
        Field::Number(i128::from(from.t)),
        Field::Number(i128::from(to.s)),
        Field::Number(i128::from(to.t)),
    ];
    print_line(b"ends", &numbers, out)
}

/// Appends the line of the next direction.
fn print_between(s: i128, t: i128, out: &mut Vec<u8>) -> Result<(), AllocError>
    ensures { OnOk result (out.new.items ≡ out.old.items ++ ended (texts.between_line s t)) }
{
    print_line(b"between", &[Field::Number(s), Field::Number(t)], out)
}

/// The text of two neighbours inside their quadrant at whose crossing an operation passes 128 bits.
pub fn cross_text(
    alloc: Global,
    search: &Search,
    from: Direction,
    to: Direction,
    place: CrossPlace,
    x: &Frac,
    y: &Frac,
) -> Result<Vec<u8>, AllocError>
    requires words { length search.now.first.now + length search.now.second.now ≤ MAX_WORDS }
    requires positions { positions search.now.first.now + positions search.now.second.now ≤ MAX_POSITIONS }
    ensures { IfOk result (λ text. text.items
        ≡ texts.cross_text (texts.search_said search.now) from to place x.now y.now) }
{
    let mut text = Vec::new(alloc);
    print_search(b"scallop refused wide", search, &mut text)?;
    print_ends(from, to, &mut text)?;
    print_line(b"place", &[Field::Text(place_name(place))], &mut text)?;
    print_line(
        b"operands",
        &[Field::Fraction(x), Field::Fraction(y)],
        &mut text,
    )?;
    print_line(b"end", &[], &mut text)?;
    Ok(text)
}

/// The text of two neighbours whose next direction `s`, `t` has too long a chain.
pub fn length_text(
    alloc: Global,
    search: &Search,
    from: Direction,
    to: Direction,
    s: i128,
    t: i128,
) -> Result<Vec<u8>, AllocError>
    requires words { length search.now.first.now + length search.now.second.now ≤ MAX_WORDS }
    requires positions { positions search.now.first.now + positions search.now.second.now ≤ MAX_POSITIONS }
    ensures { IfOk result (λ text. text.items ≡ texts.length_text (texts.search_said search.now) from to s t) }
{
    let mut text = Vec::new(alloc);
    print_search(b"scallop refused length", search, &mut text)?;
    print_ends(from, to, &mut text)?;
    print_between(s, t, &mut text)?;
    print_line(b"end", &[], &mut text)?;
    Ok(text)
}
