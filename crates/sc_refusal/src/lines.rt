//! The lines of refusals.

ghost use Rattle.std.specs.Prelude.{◌≡◌, ◌++◌, OnOk};
ghost use Rattle.std.specs.Option.{option_map};
ghost use Rattle.std.specs.Vec.{vec_items};
ghost use Rattle.sc_chain.specs.Faults.{IsSmallChain};
ghost use Rattle.sc_line.specs.Lines.{ended, text_of};
ghost use Rattle.sc_refusal.specs.Places.{place_line};
ghost use Rattle.sc_refusal.specs.Texts as texts;

use crate::places::{index_count, level_name, level_of, place_name};
use sc_certificate::print_journal;
use sc_chain::{Chain, Pivot, Word};
use sc_fraction::Frac;
use sc_rows::WideAt;
use sc_text::{Field, print_count_line, print_line, print_value_line, print_words};
use std::alloc::AllocError;

/// Appends the line of a name and the positions of a walk.
pub(crate) fn print_walk_line(
    name: &[u8],
    walk: &[u32],
    out: &mut Vec<u8>,
) -> Result<(), AllocError>
    ensures { OnOk result (out.new.items ≡ out.old.items ++ ended (texts.walk_line name.now walk.now)) }
{
    print_line(name, &[Field::Numbers(walk)], out)
}

/// Appends the line of a walk, where one is told.
fn print_told_walk(
    name: &[u8],
    walk: &Option<Vec<u32>>,
    out: &mut Vec<u8>,
) -> Result<(), AllocError>
    ensures { OnOk result (out.new.items ≡ out.old.items ++ text_of (texts.told_walk name.now (option_map vec_items walk.now))) }
{
    match walk {
        Some(walk) => print_walk_line(name, walk.as_slice(), out),
        None => Ok(()),
    }
}

/// Appends the line of a row, where one is told.
fn print_told_row(name: &[u8], row: Option<u32>, out: &mut Vec<u8>) -> Result<(), AllocError>
    ensures { OnOk result (out.new.items ≡ out.old.items ++ text_of (texts.told_row name.now row)) }
{
    match row {
        Some(row) => print_count_line(name, u64::from(row), out),
        None => Ok(()),
    }
}

/// Appends the line of a place: its name, its level, where it has one, and its indices.
fn print_place_line(at: &WideAt, out: &mut Vec<u8>) -> Result<(), AllocError>
    ensures { OnOk result (out.new.items ≡ out.old.items ++ ended (place_line at.now.place at.now.first at.now.second)) }
{
    let name = Field::Text(place_name(at.place));
    let both = [at.first, at.second];
    let indices = Field::Numbers(&both[..index_count(at.place)]);
    match level_of(at.place) {
        Some(level) => {
            let fields = [name, Field::Text(level_name(level)), indices];
            print_line(b"place", &fields, out)
        }
        None => print_line(b"place", &[name, indices], out),
    }
}

/// Appends the line of a place and that of its operands.
fn print_operation(at: &WideAt, out: &mut Vec<u8>) -> Result<(), AllocError>
    ensures { OnOk result (out.new.items ≡ out.old.items ++ text_of (texts.operation_lines at.now)) }
{
    print_place_line(at, out)?;
    let operands = [Field::Number(at.wide.x), Field::Number(at.wide.y)];
    print_line(b"operands", &operands, out)
}

/// Appends the lines of an operation that is too wide.
pub(crate) fn print_wide_lines(at: &WideAt, out: &mut Vec<u8>) -> Result<(), AllocError>
    ensures { OnOk result (out.new.items ≡ out.old.items ++ text_of (texts.wide_lines at.now)) }
{
    print_told_walk(b"entering", &at.entering, out)?;
    print_told_row(b"leaving", at.leaving, out)?;
    print_told_walk(b"walk", &at.walk, out)?;
    print_operation(at, out)
}

// The words of a chain, each behind its weight.
fn entries_of(chain: &Chain) -> &[(u32, Word)]
    ensures words { result.now ≡ chain.now }
    ensures small { IsSmallChain chain.now }
{
    let entries = chain.entries();
    let count = chain.words();
    prove!(entries.len() == count);
    entries
}

/// Appends what the body of every refusal's text begins with: the chain and the journal.
pub(crate) fn print_solved(
    chain: &Chain,
    journal: &[Pivot],
    out: &mut Vec<u8>,
) -> Result<(), AllocError>
    ensures { OnOk result (out.new.items ≡ out.old.items ++ text_of (texts.solved_lines chain.now journal.now)) }
{
    print_words(entries_of(chain), out)?;
    print_journal(journal, out)
}

fn print_number_line(name: &[u8], number: i128, out: &mut Vec<u8>) -> Result<(), AllocError>
    ensures { OnOk result (out.new.items ≡ out.old.items ++ ended (texts.number_line name.now number)) }
{
    print_line(name, &[Field::Number(number)], out)
}

/// Appends the numbers by which a part leads to too many sides.
pub(crate) fn print_sides_lines(
    value: &Frac,
    so_far: u32,
    next: i128,
    length: u64,
    out: &mut Vec<u8>,
) -> Result<(), AllocError>
    ensures { OnOk result (out.new.items ≡ out.old.items ++ text_of (texts.multiple_lines value.now so_far next length)) }
{
    print_value_line(value, out)?;
    print_count_line(b"so-far", u64::from(so_far), out)?;
    print_number_line(b"next", next, out)?;
    print_count_line(b"length", length, out)
}
