//! The lines of two chains.

ghost use Rattle.std.specs.Prelude.{◌≡◌, ◌+◌, ◌<◌, ◌≤◌, ◌^◌, ◌⊎◌, ℕ, length, map, IfOk, IsErrOf, MatchResult};
ghost use Rattle.std.specs.List.{All};
ghost use Rattle.sc_line.specs.declared.fault.Kind.{Kind as AnyKind};
ghost use Rattle.sc_words.specs.ChainText.{IsRawLine};
ghost use Rattle.sc_reduce.specs.Lines.{letters_of};
ghost use Rattle.sc_two.specs.TwoTexts.{IsTwoText, IsFirstWrong};
ghost use Rattle.sc_two.specs.inside.Behind.{HasRoom, AreLinesBehind, IsFaultBehind};
ghost use Rattle.sc_two.specs.Behind.{moved};

use crate::part::first_part;
use sc_chain::{Kind, RawLine, TextFault, read_lines};
use std::alloc::Global;

/// Numbers lines on, since others stand before them.
fn move_down(read: &mut [RawLine], by: u32)
    requires { All (HasRoom by) read.old }
    ensures { read.new ≡ map (moved by) read.old }
{
    for raw in read.iter_mut() {
        raw.line += by;
    }
}

/// The lines of a chain text that stands behind so many other lines.
fn read_behind(alloc: Global, count: u32, text: &[u8]) -> Result<Vec<RawLine>, TextFault>
    requires { count + length text.now < 2 ^ 32 }
    ensures { MatchResult result (λ read. AreLinesBehind count text.now read.items) (IsFaultBehind count text.now) }
{
    match read_lines(alloc, text) {
        Ok(mut read) => {
            move_down(read.as_mut_slice(), count);
            Ok(read)
        }
        Err(TextFault::Malformed { line, kind }) => Err(TextFault::Malformed {
            line: count + line,
            kind,
        }),
        Err(TextFault::Memory) => Err(TextFault::Memory),
    }
}

/// The lines of two chains that have a word: those before the line whose only field is a slash, and those behind it.
/// A text is refused at its first line that is neither one of a chain text nor the first with the slash; where none has
/// the slash, at the line behind the last. Lines are counted from 1 through the whole text.
pub fn read_two(alloc: Global, bytes: &[u8]) -> Result<(Vec<RawLine>, Vec<RawLine>), TextFault>
    requires { length bytes.now < 2 ^ 31 }
    ensures ok { IfOk result (λ two. IsTwoText bytes.now two.0.items two.1.items) }
    ensures ranges { IfOk result (λ two. All IsRawLine two.0.items × All IsRawLine two.1.items) }
    ensures letters { IfOk result (λ two. letters_of two.0.items + letters_of two.1.items ≤ length bytes.now) }
    ensures malformed { (line : ℕ) (kind : AnyKind) →
        IsErrOf result (TextFault.Malformed line kind) → IsFirstWrong bytes.now line kind }
    ensures refused { (line : ℕ) (kind : AnyKind) →
        IsFirstWrong bytes.now line kind →
        IsErrOf result (TextFault.Malformed line kind) ⊎ IsErrOf result TextFault.Memory }
{
    let first = first_part(bytes);
    let first_lines = read_behind(alloc, 0, first.text)?;
    let separator = first.count + 1;
    let Some(rest) = first.rest else {
        return Err(TextFault::Malformed {
            line: separator,
            kind: Kind::Separator,
        });
    };
    let second = first_part(rest);
    let second_lines = read_behind(alloc, separator, second.text)?;
    match second.rest {
        None => Ok((first_lines, second_lines)),
        Some(_) => Err(TextFault::Malformed {
            line: separator + second.count + 1,
            kind: Kind::Separator,
        }),
    }
}
