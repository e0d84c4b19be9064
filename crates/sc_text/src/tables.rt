//! The line of a distance table.

ghost use Rattle.std.specs.Prelude.{◌≡◌, ◌++◌, ◌∷◌, Some, map, IfOk, IfErr, OnOk, OnErr};
ghost use Rattle.std.specs.List.{flat_map};
ghost use Rattle.sc_line.specs.LineFaults.{IsFault};
ghost use Rattle.sc_line.specs.Lines.{ended};
ghost use Rattle.sc_line.specs.Printing.{AppendsPart};
ghost use Rattle.sc_text.specs.TableLines.{entry_field, entries_fault, from_fault, IsEntryInRange, IsTableInRange};
ghost use Rattle.sc_text.specs.inside.TableLines.{entry_fault};
ghost use Rattle.sc_text.specs.TableLines as lines;

use crate::limits::MAX_ENTRY;
use crate::printing::{Field, print_line};
use sc_line::{Fields, Kind, LineFault, number_of, within};
use std::alloc::{AllocError, Global};

// The entry of a field: a number, or `-` for none.
fn entry(field: &[u8]) -> Result<Option<i128>, Kind>
    ensures ok { IfOk result (λ entry. (field.now ≡ entry_field entry) × IsEntryInRange entry) }
    ensures err { IfErr result (λ kind. entry_fault field.now ≡ Some kind) }
{
    if field == b"-".as_slice() {
        return Ok(None);
    }
    let number = within(number_of(field)?, -MAX_ENTRY, MAX_ENTRY)?;
    Ok(Some(number))
}

// The entries of fields of which there have to be so many.
fn entries(alloc: Global, mut fields: Fields, count: usize) -> Result<Vec<Option<i128>>, LineFault>
    ensures ok { IfOk result (λ table. (fields.entry ≡ map entry_field table.items) × IsTableInRange count table.items) }
    ensures err { IfErr result (IsFault (entries_fault count fields.entry)) }
{
    let mut table = Vec::new(alloc);
    let mut all_in_range = true;
    for _turn in 0..count {
        let Some(field) = fields.next() else {
            return Err(LineFault::Malformed(Kind::Form));
        };
        match entry(field) {
            Ok(entry) => table.push(entry)?,
            Err(Kind::Range) => all_in_range = false,
            Err(kind) => return Err(LineFault::Malformed(kind)),
        }
    }
    fields.end()?;
    if all_in_range {
        Ok(table)
    } else {
        Err(LineFault::Malformed(Kind::Range))
    }
}

/// The entries of a line `from S H0 H1 ..`, where `start` has to stand as S and there have to be `count` of them.
pub fn from_line(
    alloc: Global,
    line: &[u8],
    start: u32,
    count: usize,
) -> Result<Vec<Option<i128>>, LineFault>
    ensures ok { IfOk result (λ table. (line.now ≡ lines.from_line start table.items) × IsTableInRange count table.items) }
    ensures err { IfErr result (IsFault (from_fault count start line.now)) }
{
    let mut fields = Fields::of(line);
    fields.name(b"from")?;
    fields.known(start)?;
    entries(alloc, fields, count)
}

/// Appends the line of the table of a start.
pub fn print_from_line(
    start: u32,
    entries: &[Option<i128>],
    out: &mut Vec<u8>,
) -> Result<(), AllocError>
    ensures ok { OnOk result (out.new.items ≡ out.old.items ++ ended (lines.from_line start entries.now)) }
    ensures err { OnErr result (AppendsPart out.old.items out.new.items (ended (lines.from_line start entries.now))) }
{
    let fields = [Field::Number(i128::from(start)), Field::Entries(entries)];
    print_line(b"from", &fields, out)
}
