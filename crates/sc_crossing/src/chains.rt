//! The chains of directions.

ghost use Rattle.std.specs.Prelude.{◌≡◌, ℕ, ◌+◌, ◌*◌, ◌^◌, ◌<◌, ◌≤◌, ◌++◌, length, unsigned_abs, IfOk, OnOk};
ghost use Rattle.sc_theory.specs.Chains.{positions, weight};
ghost use Rattle.sc_chain.specs.declared.limits.TheConstants.{MAX_WORDS, MAX_POSITIONS};
ghost use Rattle.sc_chain.specs.Faults.{IsSmallChain};
ghost use Rattle.sc_cone.specs.Cones.{times, inverses, second_words, chain_of};
ghost use Rattle.sc_crossing.specs.Lengths.{IsLight};

use sc_chain::{Chain, ChainFault, Word};
use sc_cone::{Direction, Quadrant};
use sc_reduce::inverse_of;
use std::alloc::{AllocError, Global};

/// What every chain keeps.
pub(crate) fn check_chain(chain: &Chain)
    ensures { IsSmallChain chain.now }
{
    // The call is for its contract alone: by it the prover knows what the chain's invariant says.
    let _words = chain.words();
}

/// Appends words with `factor` times their weights.
fn append_times(
    alloc: Global,
    factor: u64,
    words: &[(u32, Word)],
    to: &mut Vec<(u32, Word)>,
) -> Result<(), AllocError>
    requires { (w : ℕ) → w < length words.now → factor * weight words.now w < 2 ^ 32 }
    ensures { OnOk result (to.new.items ≡ to.old.items ++ times factor words.now) }
{
    for entry in words {
        let weight = factor * u64::from(entry.0);
        to.push((weight as u32, entry.1.copy(alloc)?))?;
    }
    Ok(())
}

/// Appends the inverses of words with `factor` times their weights.
fn append_inverses(
    alloc: Global,
    factor: u64,
    words: &[(u32, Word)],
    to: &mut Vec<(u32, Word)>,
) -> Result<(), AllocError>
    requires { (w : ℕ) → w < length words.now → factor * weight words.now w < 2 ^ 32 }
    ensures { OnOk result (to.new.items ≡ to.old.items ++ times factor (inverses words.now)) }
{
    for entry in words {
        let weight = factor * u64::from(entry.0);
        to.push((weight as u32, inverse_of(alloc, &entry.1)?))?;
    }
    Ok(())
}

/// Appends the words that stand for the second chain in a quadrant, with `factor` times their weights.
fn append_second(
    alloc: Global,
    quadrant: Quadrant,
    factor: u64,
    words: &[(u32, Word)],
    to: &mut Vec<(u32, Word)>,
) -> Result<(), AllocError>
    requires { (w : ℕ) → w < length words.now → factor * weight words.now w < 2 ^ 32 }
    ensures { OnOk result (to.new.items ≡ to.old.items ++ times factor (second_words quadrant words.now)) }
{
    match quadrant {
        Quadrant::Lower => append_inverses(alloc, factor, words, to),
        Quadrant::Upper => append_times(alloc, factor, words, to),
    }
}

/// The words of the chain of a direction.
fn words_at(
    alloc: Global,
    quadrant: Quadrant,
    first: &Chain,
    second: &Chain,
    direction: Direction,
) -> Result<Vec<(u32, Word)>, AllocError>
    requires light { IsLight first.now second.now direction }
    ensures { IfOk result (λ words. words.items ≡ chain_of quadrant first.now second.now direction) }
{
    check_chain(first);
    check_chain(second);
    let (s, t) = (direction.s.unsigned_abs(), direction.t.unsigned_abs());
    let mut words = Vec::new(alloc);
    append_times(alloc, s, first.entries(), &mut words)?;
    append_second(alloc, quadrant, t, second.entries(), &mut words)?;
    Ok(words)
}

/// The chain of a direction: the first chain's words with `s` times their weights, and behind them the second's, or in
/// the lower quadrant their inverses, with the size of `t` times theirs. The two chains have together no more words and
/// positions than a chain may have, and the direction's chain is no longer than one may be.
pub fn chain_at(
    alloc: Global,
    quadrant: Quadrant,
    first: &Chain,
    second: &Chain,
    direction: Direction,
) -> Result<Chain, AllocError>
    requires words { length first.now + length second.now ≤ MAX_WORDS }
    requires positions { positions first.now + positions second.now ≤ MAX_POSITIONS }
    requires light { IsLight first.now second.now direction }
    ensures { IfOk result (λ c. c ≡ chain_of quadrant first.now second.now direction) }
{
    check_chain(first);
    check_chain(second);
    let words = words_at(alloc, quadrant, first, second, direction)?;
    match Chain::of_reduced(alloc, words) {
        Ok(chain) => Ok(chain),
        Err(fault) => match fault {
            ChainFault::Memory => Err(AllocError),
            // The words are those of two chains within the limits together, and the direction is light.
            _ => unreachable!(),
        },
    }
}
