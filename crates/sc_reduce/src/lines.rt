//! The chain of the lines of a text.

ghost use Rattle.std.specs.Prelude.{◌≡◌, ℕ, ◌<◌, ◌≤◌, ◌^◌, List, length, IfOk, IfErr, OnOk, option_to_list};
ghost use Rattle.std.specs.List.{All};
ghost use Rattle.sc_theory.specs.Chains.{chain_total};
ghost use Rattle.sc_words.specs.declared.lines.RawLine.{RawLine as Line};
ghost use Rattle.sc_words.specs.ChainText.{IsChainText, IsRawLine};
ghost use Rattle.sc_reduce.specs.Lines.{IsWithin, IsExcess, line_chain, chain_of, letters_of, lines_total};

use crate::cyclic::cyclic_reduce;
use crate::element::inverse_of;
use sc_chain::{Chain, ChainFault, RawLine, Word};
use std::alloc::{AllocError, Global};

/// The word of a line with its weight, unless the line is dropped.
fn weighted_word(alloc: Global, line: &RawLine) -> Result<Option<(u32, Word)>, AllocError>
    ensures { IfOk result (λ entry. option_to_list entry ≡ line_chain line.now) }
{
    if line.coefficient == 0 {
        return Ok(None);
    }
    let reduced = cyclic_reduce(alloc, &line.word)?;
    if reduced.is_empty() {
        return Ok(None);
    }
    let word = if line.coefficient < 0 {
        inverse_of(alloc, &reduced)?
    } else {
        reduced
    };
    Ok(Some((line.coefficient.unsigned_abs(), word)))
}

/// The words of the lines with their weights, without those that are dropped.
fn weighted_words(alloc: Global, lines: &[RawLine]) -> Result<Vec<(u32, Word)>, AllocError>
    ensures { IfOk result (λ words. words.items ≡ chain_of lines.now) }
{
    let mut words = Vec::new(alloc);
    for line in lines {
        if let Some(entry) = weighted_word(alloc, line)? {
            words.push(entry)?;
        }
    }
    Ok(words)
}

/// The chain of the lines: each line's word is cyclically reduced. A line with the coefficient 0 or with nothing left
/// of its word is dropped, a negative coefficient takes the inverse word, and the coefficient's size is the weight.
pub fn reduce_lines(alloc: Global, raw: &[RawLine]) -> Result<Chain, ChainFault>
    requires ranges { All IsRawLine raw.now }
    requires letters { letters_of raw.now < 2 ^ 32 }
    ensures ok { IfOk result (λ c. c ≡ chain_of raw.now) }
    ensures within { OnOk result (IsWithin (chain_of raw.now)) }

    // Over 32 words, or else over 64 positions, are refused with their count.
    ensures excess { IfErr result (IsExcess (chain_of raw.now)) }
{
    Chain::of_reduced(alloc, weighted_words(alloc, raw)?)
}

/// Each total of the chain of lines is the sum, over the lines, of coefficient times the total of the word as written.
pub fn reduction_keeps_line_totals()
    ensures { (g : ℕ) (lines : List Line) → chain_total g (chain_of lines) ≡ lines_total g lines }
{}

/// The words of a chain text have no more letters than the text has bytes.
pub fn letters_of_a_text()
    ensures { (text : List ℕ) (read : List Line) → IsChainText text read → letters_of read ≤ length text }
{}
