//! The command `gen`.

ghost use Rattle.std.specs.Prelude.{◌≡◌, ◌≤◌, IfOk};
ghost use Rattle.sc_chain.specs.Faults.{IsSmallChain};
ghost use Rattle.sc_random.specs.declared.limits.TheConstants.{MAX_LETTERS};
ghost use Rattle.sc_app.specs.Answer.{status_of, text_of};
ghost use Rattle.sc_app.specs.Generate.{GenerateResponds, summary};

use crate::answer::Answer;
use crate::limits::DEFAULT_PIVOTS;
use crate::scl::refused;
use sc_chain::{Chain, Word};
use sc_random::drawn_chain;
use sc_solve::{Solution, extremal};
use sc_text::{Field, print_count_line, print_line, print_value_line, print_words};
use std::alloc::{AllocError, Global};

// The words of a chain, each behind its weight.
fn entries_of(chain: &Chain) -> &[(u32, Word)]
    ensures words { result.now ≡ chain.now }
    ensures small { IsSmallChain chain.now }
{
    let entries = chain.entries();
    let count = chain.words();
    prove!(entries.len() == count);
    entries
}

/// The summary of a solution.
fn summary(
    alloc: Global,
    seed: u64,
    letters: u32,
    chain: &Chain,
    solution: &Solution,
) -> Result<Vec<u8>, AllocError>
    ensures { IfOk result (λ text. text.items ≡ summary seed letters chain.now solution.now) }
{
    let asked = [
        Field::Number(i128::from(seed)),
        Field::Number(i128::from(letters)),
    ];
    let mut text = Vec::new(alloc);
    print_line(b"scallop gen", &asked, &mut text)?;
    print_words(entries_of(chain), &mut text)?;
    print_value_line(&solution.value, &mut text)?;
    print_count_line(b"length", chain.length(), &mut text)?;
    print_count_line(b"columns", u64::from(solution.columns), &mut text)?;
    print_count_line(b"pivots", solution.journal.len() as u64, &mut text)?;
    print_line(b"end", &[], &mut text)?;
    Ok(text)
}

/// Draws a chain by a seed, solves it, and answers a summary of the solution, or why there is none.
pub fn answer_generate(alloc: Global, seed: u64, letters: u32) -> Result<Answer, AllocError>
    requires { letters ≤ MAX_LETTERS }
    ensures { IfOk result (λ answer. GenerateResponds seed letters (status_of answer) (text_of answer)) }
{
    let chain = drawn_chain(alloc, seed, letters)?;
    match extremal(alloc, &chain, DEFAULT_PIVOTS) {
        Ok(solution) => Ok(Answer::Text(summary(alloc, seed, letters, &chain, &solution)?)),
        Err(fault) => refused(alloc, &chain, fault),
    }
}
