//! The lines of a chain text.

ghost use Rattle.std.specs.Prelude.{◌≡◌, ◌<◌, ◌^◌, ◌⊎◌, ℕ, length, IfOk, IsErrOf};
ghost use Rattle.std.specs.List.{All};
ghost use Rattle.sc_line.specs.declared.fault.Kind.{Kind as AnyKind};
ghost use Rattle.sc_words.specs.ChainText as texts;

use crate::cases::case_of;
use crate::fields::Lines;
use crate::letter::letters_of;
use crate::word::Word;
use sc_line::TextFault;
use std::alloc::Global;

/// A line of a chain text that has a word.
#[derive(Debug, Drop)]
pub struct RawLine {
    /// Its number, counted from 1.
    pub line: u32,
    /// The coefficient, 1 where the line has none; of a size of at most `limits::MAX_COEFFICIENT`.
    pub coefficient: i32,
    /// The word as it is written.
    pub word: Word,
}

/// The lines of a chain text that have a word, in their order. A text is refused at its first line that is neither
/// blank, nor a comment, nor a word behind a coefficient or alone.
pub fn read_lines(alloc: Global, bytes: &[u8]) -> Result<Vec<RawLine>, TextFault>
    requires { length bytes.now < 2 ^ 32 }
    ensures ok { IfOk result (λ read. texts.IsChainText bytes.now read.items) }
    ensures ranges { IfOk result (λ read. All texts.IsRawLine read.items) }
    ensures malformed { (line : ℕ) (kind : AnyKind) → IsErrOf result (TextFault.Malformed line kind) → texts.IsFirstMalformed bytes.now line kind }
    ensures refused { (line : ℕ) (kind : AnyKind) → texts.IsFirstMalformed bytes.now line kind → IsErrOf result (TextFault.Malformed line kind) ⊎ IsErrOf result TextFault.Memory }
{
    let mut read = Vec::new(alloc);
    let mut line = 0;
    for text in Lines::of(bytes) {
        line += 1;
        match case_of(text) {
            Ok(None) => {}
            Ok(Some((coefficient, letters))) => read.push(RawLine {
                line,
                coefficient,
                word: Word::from_letters(letters_of(alloc, letters)?),
            })?,
            Err(kind) => return Err(TextFault::Malformed { line, kind }),
        }
    }
    Ok(read)
}
