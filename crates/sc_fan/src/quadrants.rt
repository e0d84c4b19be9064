//! The two quadrants: the inverse pairs of their chains, and the quadrant of an edge.

ghost use Rattle.std.specs.Prelude.{◌≡◌, ◌++◌, IfOk, OnOk};
ghost use Rattle.sc_theory.specs.Prices.{pairs as pairs_of};
ghost use Rattle.sc_text.specs.Surfaces.{IsChainInRange};
ghost use Rattle.sc_cone.specs.Cones.{inverses, second_words, quadrant_chain};
ghost use Rattle.sc_cone.specs.Fans.{quadrant_from};
ghost use Rattle.sc_fan.specs.inside.Printing.{pairs_in};

use crate::corner::Corner;
use sc_chain::{Chain, Pairs, Word};
use sc_cone::Quadrant;
use sc_reduce::inverse_of;
use sc_text::chain_of_words;
use std::alloc::{AllocError, Global};

// Appends words as they are.
fn append_words(
    alloc: Global,
    words: &[(u32, Word)],
    to: &mut Vec<(u32, Word)>,
) -> Result<(), AllocError>
    ensures { OnOk result (to.new.items ≡ to.old.items ++ words.now) }
{
    for entry in words {
        to.push((entry.0, entry.1.copy(alloc)?))?;
    }
    Ok(())
}

// Appends the inverse words.
fn append_inverses(
    alloc: Global,
    words: &[(u32, Word)],
    to: &mut Vec<(u32, Word)>,
) -> Result<(), AllocError>
    ensures { OnOk result (to.new.items ≡ to.old.items ++ inverses words.now) }
{
    for entry in words {
        to.push((entry.0, inverse_of(alloc, &entry.1)?))?;
    }
    Ok(())
}

// Appends what stands for the second chain in a quadrant.
fn append_second(
    alloc: Global,
    quadrant: Quadrant,
    words: &[(u32, Word)],
    to: &mut Vec<(u32, Word)>,
) -> Result<(), AllocError>
    ensures { OnOk result (to.new.items ≡ to.old.items ++ second_words quadrant words.now) }
{
    match quadrant {
        Quadrant::Lower => append_inverses(alloc, words, to),
        Quadrant::Upper => append_words(alloc, words, to),
    }
}

// The words of the chain of a quadrant.
fn words_of(
    alloc: Global,
    quadrant: Quadrant,
    first: &Chain,
    second: &Chain,
) -> Result<Vec<(u32, Word)>, AllocError>
    ensures { IfOk result (λ words. words.items ≡ quadrant_chain quadrant first.now second.now) }
{
    let mut words = Vec::new(alloc);
    append_words(alloc, first.entries(), &mut words)?;
    append_second(alloc, quadrant, second.entries(), &mut words)?;
    Ok(words)
}

/// The chain of a quadrant.
pub(crate) fn chain_of_quadrant(
    alloc: Global,
    quadrant: Quadrant,
    first: &Chain,
    second: &Chain,
) -> Result<Chain, AllocError>
    requires { IsChainInRange (quadrant_chain quadrant first.now second.now) }
    ensures { IfOk result (λ chain. chain ≡ quadrant_chain quadrant first.now second.now) }
{
    let words = words_of(alloc, quadrant, first, second)?;
    let chain = chain_of_words(alloc, words)?;
    Ok(chain)
}

/// The inverse pairs of the chain of a quadrant.
pub(crate) fn quadrant_pairs(
    alloc: Global,
    quadrant: Quadrant,
    first: &Chain,
    second: &Chain,
) -> Result<Pairs, AllocError>
    requires { IsChainInRange (quadrant_chain quadrant first.now second.now) }
    ensures { IfOk result (λ pairs. pairs ≡ pairs_of (quadrant_chain quadrant first.now second.now)) }
{
    let chain = chain_of_quadrant(alloc, quadrant, first, second)?;
    let pairs = Pairs::of(alloc, &chain)?;
    Ok(pairs)
}

// The quadrant of the edge that goes from a corner.
fn quadrant_behind(corner: &Corner) -> Quadrant
    ensures { result ≡ quadrant_from corner.now.direction.t }
{
    if corner.direction.t < 0 {
        Quadrant::Lower
    } else {
        Quadrant::Upper
    }
}

/// The pairs of this quadrant's chain.
pub(crate) fn pairs_behind<'a>(corner: &Corner, upper: &'a Pairs, lower: &'a Pairs) -> &'a Pairs
    ensures { result.now ≡ pairs_in (quadrant_from corner.now.direction.t) upper.now lower.now }
{
    match quadrant_behind(corner) {
        Quadrant::Lower => lower,
        Quadrant::Upper => upper,
    }
}

/// The chain of the quadrant of the edge that goes from a corner.
pub(crate) fn chain_behind<'a>(corner: &Corner, upper: &'a Chain, lower: &'a Chain) -> &'a Chain
    ensures { pairs_of result.now ≡ pairs_in (quadrant_from corner.now.direction.t) (pairs_of upper.now) (pairs_of lower.now) }
{
    match quadrant_behind(corner) {
        Quadrant::Lower => lower,
        Quadrant::Upper => upper,
    }
}
