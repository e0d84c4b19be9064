//! The notes: a line for each status but `Done`.

ghost use Rattle.std.specs.Prelude.{◌≡◌, ◌≤◌, [], ◌∷◌, ◌++◌, Option, OnOk, OnErr, IsTrue};
ghost use Rattle.sc_outside.specs.Faults.{Rose};
ghost use Rattle.sc_outside.specs.Told.{Took, TookPart};
ghost use Rattle.sc_app.specs.Notes.{kind_name, note_of, number_text, text_of};

use crate::status::{Status, What};
use itoa::Buffer;
use sc_chain::Kind;
use sc_outside::{Failed, Sink, write_all};

/// A line in its parts, so that it can be written where there is no memory.
#[derive(Clone, Copy)]
struct Note {
    before: &'static [u8],
    number: Option<u32>,
    after: &'static [u8],
}

fn plain(before: &'static [u8]) -> Note
    ensures { text_of result.before.now result.number result.after.now ≡ before.now }
{
    Note {
        before,
        number: None,
        after: b"",
    }
}

fn malformed_end(kind: Kind) -> &'static [u8]
    ensures { result.now ≡ 32 ∷ kind_name kind ++ 10 ∷ [] }
{
    match kind {
        Kind::Coefficient => b" coefficient\n",
        Kind::MissingWord => b" missing-word\n",
        Kind::Letter => b" letter\n",
        Kind::Extra => b" extra\n",
        Kind::NotAscii => b" not-ascii\n",
        Kind::Separator => b" separator\n",
        Kind::Form => b" form\n",
        Kind::Range => b" range\n",
        Kind::NotReduced => b" not-reduced\n",
        Kind::Ended => b" ended\n",
        Kind::Rest => b" rest\n",
    }
}

fn note_of_status(status: &Status) -> Note
    ensures { text_of result.before.now result.number result.after.now ≡ note_of status.now }
{
    match status {
        Status::Done => plain(b""),
        Status::Usage => plain(
            b"scallop: usage: surface | shape | check | svg | scl [--pivots N] | ball [--pivots N] | gen SEED K\n",
        ),
        Status::Malformed { line, kind } => Note {
            before: b"scallop: malformed line ",
            number: Some(*line),
            after: malformed_end(*kind),
        },
        Status::Large(What::Bytes) => plain(b"scallop: large bytes\n"),
        Status::Large(What::Words(count)) => Note {
            before: b"scallop: large words ",
            number: Some(*count),
            after: b"\n",
        },
        Status::Large(What::Positions(count)) => Note {
            before: b"scallop: large positions ",
            number: Some(*count),
            after: b"\n",
        },
        Status::Wide => plain(b"scallop: wide\n"),
        Status::Budget => plain(b"scallop: budget\n"),
        Status::Sides => plain(b"scallop: sides\n"),
        Status::ReadFault => plain(b"scallop: read fault\n"),
        Status::WriteFault => plain(b"scallop: write fault\n"),
        Status::Memory => plain(b"scallop: memory\n"),
        Status::Rejected(_) => plain(b"scallop: rejected\n"),
    }
}

fn write_number<E: Sink>(number: Option<u32>, notes: &mut E) -> Result<(), Failed>
    ensures all { OnOk result (Took (E.taken notes.old) (E.taken notes.new) (number_text number)) }
    ensures part { OnErr result (TookPart (E.taken notes.old) (E.taken notes.new) (number_text number)) }
    ensures fault { OnErr result (Rose (E.faults notes.old) (E.faults notes.new) (E.saturated notes.new)) }
    ensures never_falls { E.faults notes.old ≤ E.faults notes.new }
    ensures stays_saturated { IsTrue (E.saturated notes.old) → IsTrue (E.saturated notes.new) }
{
    match number {
        None => write_all(notes, b""),
        Some(number) => write_all(notes, Buffer::new().format(number).as_bytes()),
    }
}

/// Writes the line of a status. Where `notes` fails it has taken a prefix of the line.
pub fn write_note<E: Sink>(status: &Status, notes: &mut E) -> Result<(), Failed>
    ensures all { OnOk result (Took (E.taken notes.old) (E.taken notes.new) (note_of status.now)) }
    ensures part { OnErr result (TookPart (E.taken notes.old) (E.taken notes.new) (note_of status.now)) }
    ensures fault { OnErr result (Rose (E.faults notes.old) (E.faults notes.new) (E.saturated notes.new)) }
{
    let note = note_of_status(status);
    write_all(notes, note.before)?;
    write_number(note.number, notes)?;
    write_all(notes, note.after)
}
