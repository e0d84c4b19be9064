//! The sides of the seed surface of a balanced chain.

ghost use Rattle.std.specs.Prelude.{◌≡◌, ℕ, ◌<◌, ◌≤◌, ◌^◌, length, get_or, IfOk};
ghost use Rattle.sc_theory.specs.Chains.{positions, IsBalanced};
ghost use Rattle.sc_theory.specs.Fatgraphs.{IsFatgraph};
ghost use Rattle.sc_chain.specs.declared.limits.TheConstants.{MAX_LENGTH};
ghost use Rattle.sc_chain.specs.Faults.{IsSmallChain};
ghost use Rattle.sc_gluing.specs.Cycles.{labels_of};
ghost use Rattle.sc_gluing.specs.Laying.{AreLaid};
ghost use Rattle.sc_gluing.specs.Letters.{code as the_code};
ghost use Rattle.sc_gluing.specs.inside.Letters.{AreCodes, AreInverseCodes, AreSeedMates, AreListed};
ghost use Rattle.sc_gluing.specs.Seeds.{positions_of as the_positions, word_cycles, IsSeed};

use crate::laying::Laid;
use crate::matching::partners_of;
use sc_chain::limits::GENERATORS;
use sc_chain::{Chain, inverse_of};
use sc_theory::{Letter, Side};
use std::alloc::{AllocError, Global};

/// The number of a letter: one for each generator and one for its inverse.
fn code(letter: Letter) -> u32
    ensures { result ≡ the_code letter }
{
    let sign = if letter.inverse { 1 } else { 0 };
    2 * u32::from(letter.number) + sign
}

/// The positions of a word in their order.
fn positions_of(alloc: Global, chain: &Chain, w: usize) -> Result<Vec<u32>, AllocError>
    requires inside { w < length chain.now }
    requires small { IsSmallChain chain.now }
    ensures { IfOk result (λ walk. walk.items ≡ the_positions chain.now w) }
{
    let first = chain.first_of(w);
    let len = chain.entries()[w].1.len();
    let mut walk = Vec::with_capacity(alloc, len)?;
    for place in 0..len {
        walk.push((first + place) as u32)?;
    }
    Ok(walk)
}

/// The copies of the words of a chain, word by word, one behind another.
fn lay_words(alloc: Global, chain: &Chain) -> Result<Laid, AllocError>
    ensures laid { IfOk result (λ laid. AreLaid (word_cycles chain.now) laid.labels.items laid.afters.items) }
    ensures few { IfOk result (λ laid. length laid.labels.items < 2 ^ 32) }
    ensures small { IsSmallChain chain.now }
{
    let mut laid = Laid::new(alloc);
    for w in 0..chain.words() {
        let walk = positions_of(alloc, chain, w)?;
        laid.lay_copies(walk.as_slice(), chain.weight(w))?;
    }
    Ok(laid)
}

/// The number of the letter at each label.
fn codes_of(alloc: Global, chain: &Chain, labels: &[u32]) -> Result<Vec<u32>, AllocError>
    requires { (s : ℕ) → s < length labels.now → get_or labels.now s 0 < positions chain.now }
    ensures { IfOk result (λ codes. AreCodes chain.now labels.now (length labels.now) codes.items) }
{
    let mut codes = Vec::with_capacity(alloc, labels.len())?;
    for label in labels {
        codes.push(code(chain.letter(*label as usize)))?;
    }
    Ok(codes)
}

/// The number of the inverse of the letter at each label.
fn inverse_codes_of(alloc: Global, chain: &Chain, labels: &[u32]) -> Result<Vec<u32>, AllocError>
    requires { (s : ℕ) → s < length labels.now → get_or labels.now s 0 < positions chain.now }
    ensures { IfOk result (λ codes. AreInverseCodes chain.now labels.now (length labels.now) codes.items) }
{
    let mut codes = Vec::with_capacity(alloc, labels.len())?;
    for label in labels {
        codes.push(code(inverse_of(chain.letter(*label as usize))))?;
    }
    Ok(codes)
}

/// The mate of each side: of the sides with a letter the first is the mate of the first with its inverse, and so on.
fn mates_by_letter(alloc: Global, chain: &Chain, labels: &[u32]) -> Result<Vec<u32>, AllocError>
    requires balanced { IsBalanced chain.now }
    requires small { IsSmallChain chain.now }
    requires laid { labels.now ≡ labels_of (word_cycles chain.now) }
    requires few { length labels.now < 2 ^ 32 }
    ensures { IfOk result (λ mates. AreSeedMates chain.now mates.items) }
{
    let codes = codes_of(alloc, chain, labels)?;
    let inverses = inverse_codes_of(alloc, chain, labels)?;
    partners_of(
        alloc,
        codes.as_slice(),
        inverses.as_slice(),
        2 * GENERATORS as usize,
    )
}

/// The sides with these labels, mates and nexts.
fn listed_sides(
    alloc: Global,
    labels: &[u32],
    mates: &[u32],
    nexts: &[u32],
) -> Result<Vec<Side>, AllocError>
    requires mates { length mates.now ≡ length labels.now }
    requires nexts { length nexts.now ≡ length labels.now }
    ensures { IfOk result (λ sides. AreListed labels.now mates.now nexts.now (length labels.now) sides.items) }
{
    let mut sides = Vec::with_capacity(alloc, labels.len())?;
    for (side, label) in labels.iter().enumerate() {
        sides.push(Side {
            label: *label,
            mate: mates[side],
            next: nexts[side],
        })?;
    }
    Ok(sides)
}

/// The sides of the seed surface: word by word, copy by copy, letter by letter.
pub fn seed_sides(alloc: Global, chain: &Chain) -> Result<Vec<Side>, AllocError>
    requires { IsBalanced chain.now }
    ensures seed { IfOk result (λ sides. IsSeed chain.now sides.items) }
    ensures fatgraph { IfOk result (λ sides. IsFatgraph chain.now 1 sides.items) }
    ensures few { IfOk result (λ sides. length sides.items ≤ MAX_LENGTH) }
{
    let laid = lay_words(alloc, chain)?;
    let labels = laid.labels.as_slice();
    let mates = mates_by_letter(alloc, chain, labels)?;
    listed_sides(alloc, labels, mates.as_slice(), laid.afters.as_slice())
}
