//! The chain of two commutators of words that are drawn.

ghost use Rattle.std.specs.Prelude.{◌≡◌, ◌≤◌, ◌*◌, IfOk, OnOk};
ghost use Rattle.std.specs.List.{All};
ghost use Rattle.sc_theory.specs.Chains.{IsBalanced, positions};
ghost use Rattle.sc_words.specs.ChainText.{IsRawLine};
ghost use Rattle.sc_reduce.specs.Lines.{IsWithin};
ghost use Rattle.sc_random.specs.Drawn as drawn;
ghost use Rattle.sc_random.specs.declared.limits.TheConstants.{MAX_LETTERS};

use crate::draws::draws_of;
use crate::words::drawn_commutator;
use sc_chain::{Chain, ChainFault, RawLine};
use sc_reduce::reduce_lines;
use std::alloc::{AllocError, Global};

/// The two lines.
fn drawn_lines(alloc: Global, seed: u64, letters: u32) -> Result<Vec<RawLine>, AllocError>
    requires { letters ≤ MAX_LETTERS }
    ensures { IfOk result (λ lines. lines.items ≡ drawn.drawn_lines seed letters) }
{
    let size = letters as usize;
    let draws = draws_of(alloc, seed, 4 * size)?;
    let (first_draws, second_draws) = draws.as_slice().split_at(2 * size);
    let first = drawn_commutator(alloc, size, first_draws)?;
    let second = drawn_commutator(alloc, size, second_draws)?;
    let mut lines = Vec::new(alloc);
    lines.push(RawLine {
        line: 1,
        coefficient: 1,
        word: first,
    })?;
    lines.push(RawLine {
        line: 2,
        coefficient: 1,
        word: second,
    })?;
    Ok(lines)
}

/// The chain of two commutators of words of so many letters, at most `limits::MAX_LETTERS`, that are drawn by a seed.
/// The letters are `a`, `b` and their inverses, and no two neighbours in a drawn word are inverse.
pub fn drawn_chain(alloc: Global, seed: u64, letters: u32) -> Result<Chain, AllocError>
    requires { letters ≤ MAX_LETTERS }
    ensures chain { IfOk result (λ c. c ≡ drawn.drawn_chain seed letters) }
    // The totals are 0, and the positions are few.
    ensures balanced { IfOk result IsBalanced }
    ensures few { IfOk result (λ c. positions c ≤ 8 * letters) }
    // It is the chain of lines as they stand in a text, and within the limits of one.
    ensures lines { OnOk result (All IsRawLine (drawn.drawn_lines seed letters)) }
    ensures within { OnOk result (IsWithin (drawn.drawn_chain seed letters)) }
{
    let lines = drawn_lines(alloc, seed, letters)?;
    match reduce_lines(alloc, lines.as_slice()) {
        Ok(chain) => Ok(chain),
        Err(fault) => match fault {
            ChainFault::Memory => Err(AllocError),
            // Two short commutators pass no limit.
            _ => unreachable!(),
        },
    }
}
