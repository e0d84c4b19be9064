//! The command `scl`.

ghost use Rattle.std.specs.Prelude.{◌≡◌, ◌≤◌, ◌+◌, ◌<◌, ◌++◌, ◌∷◌, length, codes, IfOk, OnOk};
ghost use Rattle.sc_theory.specs.Chains.{IsBalanced};
ghost use Rattle.sc_text.specs.Surfaces.{IsChainInRange};
ghost use Rattle.sc_text.specs.declared.limits.TheConstants.{MAX_PIVOTS};
ghost use Rattle.sc_certificate.specs.Certificates.{IsCertificateInRange, certificate_text};
ghost use Rattle.sc_solve.specs.Solutions.{certificate_of};
ghost use Rattle.sc_app.specs.Answer.{status_of, text_of};
ghost use Rattle.sc_app.specs.Scl.{SclResponds, IsValueOf, IsToldBy};

use crate::answer::Answer;
use crate::infinite::infinite_line;
use crate::limits::MAX_CHAIN_BYTES;
use sc_chain::{Chain, ChainFault, read_lines};
use sc_prices::Certificate;
use sc_reduce::reduce_lines;
use sc_refusal::{budget_text, sides_text, wide_text};
use sc_solve::{Solution, SolveFault, extremal};
use std::alloc::{AllocError, Global};

/// The text of a solution as a certificate over its chain.
fn certificate_text(alloc: Global, chain: Chain, solution: Solution) -> Result<Vec<u8>, AllocError>
    requires over { solution.fatgraph.chain ≡ chain }
    requires copies { solution.fatgraph.copies ≡ solution.n }
    requires in_range { IsCertificateInRange (certificate_of solution) }
    ensures { IfOk result (λ text. text.items ≡ certificate_text (certificate_of solution)) }
{
    let Solution {
        n,
        fatgraph,
        list,
        tables,
        journal,
        value,
        ..
    } = solution;
    let sides = Vec::from_slice(alloc, fatgraph.sides().as_slice())?;
    let certificate = Certificate {
        chain,
        value,
        n,
        sides,
        list,
        tables,
        journal,
    };
    let mut text = Vec::new(alloc);
    certificate.print(&mut text)?;
    Ok(text)
}

/// The answer of a solver that stopped.
pub fn refused(alloc: Global, chain: &Chain, fault: SolveFault) -> Result<Answer, AllocError>
    ensures { IfOk result (λ answer. IsToldBy chain.now fault (status_of answer) (text_of answer)) }
{
    match fault {
        SolveFault::Budget { journal, improving } => Ok(Answer::OverBudget(budget_text(
            alloc,
            chain,
            journal.as_slice(),
            &improving,
        )?)),
        SolveFault::Wide { journal, at } => Ok(Answer::TooWide(wide_text(
            alloc,
            chain,
            journal.as_slice(),
            &at,
        )?)),
        SolveFault::Sides {
            journal,
            part,
            so_far,
            next,
        } => Ok(Answer::ManySides(sides_text(
            alloc,
            chain,
            journal.as_slice(),
            &part.polygon,
            &part.value,
            so_far,
            next,
        )?)),
        SolveFault::Memory => Err(AllocError),
    }
}

/// The answer for a balanced chain.
fn solve(alloc: Global, chain: Chain, pivots: u32) -> Result<Answer, AllocError>
    requires balanced { IsBalanced chain }
    requires chain_in_range { IsChainInRange chain }
    requires some_pivots { 1 ≤ pivots }
    requires few_pivots { pivots ≤ MAX_PIVOTS }
    ensures { IfOk result (λ answer. IsValueOf pivots chain (status_of answer) (text_of answer)) }
{
    match extremal(alloc, &chain, pivots) {
        Ok(solution) => Ok(Answer::Text(certificate_text(alloc, chain, solution)?)),
        Err(fault) => refused(alloc, &chain, fault),
    }
}

/// The answer for a chain that is within the limits.
fn value_of(alloc: Global, chain: Chain, pivots: u32) -> Result<Answer, AllocError>
    requires chain_in_range { IsChainInRange chain }
    requires some_pivots { 1 ≤ pivots }
    requires few_pivots { pivots ≤ MAX_PIVOTS }
    ensures { IfOk result (λ answer. IsValueOf pivots chain (status_of answer) (text_of answer)) }
{
    match chain.first_unbalanced() {
        None => solve(alloc, chain, pivots),
        Some((generator, total)) => {
            let line = infinite_line(alloc, b"infinite", generator, total)?;
            Ok(Answer::Text(line))
        }
    }
}

/// Reads a chain text and answers its stable commutator length, with a certificate that is found by at most so many
/// pivots, or why there is none.
pub fn answer_scl(alloc: Global, pivots: u32, input: &[u8]) -> Result<Answer, AllocError>
    requires few_bytes { length input.now ≤ MAX_CHAIN_BYTES }
    requires some_pivots { 1 ≤ pivots }
    requires few_pivots { pivots ≤ MAX_PIVOTS }
    ensures { IfOk result (λ answer. SclResponds pivots input.now (status_of answer) (text_of answer)) }
{
    let lines = match read_lines(alloc, input) {
        Ok(lines) => lines,
        Err(fault) => return Answer::to_fault(fault),
    };
    match reduce_lines(alloc, lines.as_slice()) {
        Ok(chain) => value_of(alloc, chain, pivots),
        Err(ChainFault::ManyWords { count }) => Ok(Answer::ManyWords(count)),
        Err(ChainFault::ManyPositions { count }) => Ok(Answer::ManyPositions(count)),
        Err(ChainFault::Memory) => Err(AllocError),
        // The words are reduced, none is empty, and coefficients are too small for the chain to be too long.
        Err(_) => unreachable!(),
    }
}
