//! The least number of copies of a chain for which each part stands a whole number of times.

ghost use Rattle.std.specs.Prelude.{◌≡◌, ℕ, ◌*◌, ◌^◌, ◌<◌, ◌≤◌, length, pos, IfOk, IfErr};
ghost use Rattle.std.specs.List.{AllByRecursion};
ghost use Rattle.sc_fatgraph.specs.declared.limits.TheConstants.{MAX_COPIES, MAX_SIDES};
ghost use Rattle.sc_theory.specs.Chains.{weighted_length};
ghost use Rattle.sc_fraction.specs.Frac.{denominator};
ghost use Rattle.sc_gluing.specs.Gluing.{AreBalanced};
ghost use Rattle.sc_assembly.specs.declared.counting.PartsFault.TheVariants.{Memory};
ghost use Rattle.sc_assembly.specs.Multiples.{IsTimes, IsLeastCommon, IsLeastWhole, AreCounts, counted, AreValues, HasManySides, IsFaultOf};
ghost use Rattle.sc_assembly.specs.inside.Multiples.{IsCountable};

use crate::parts::{Multiples, Part};
use sc_chain::Chain;
use sc_fatgraph::limits::MAX_SIDES;
use sc_fraction::Frac;
use sc_whole::lcm_within;
use std::alloc::{AllocError, Global};

/// Why there are no multiples.
#[derive(Clone, Copy, Debug, PartialEq, Eq)]
pub enum PartsFault {
    /// The least number of copies has more sides than a fatgraph may have.
    Sides {
        /// The first part whose denominator leads there.
        part: u32,
        /// The least common multiple of the denominators of the parts before it.
        so_far: u32,
        /// The denominator of that part.
        next: i128,
    },
    /// There was no memory for the counts.
    Memory,
}

impl From<AllocError> for PartsFault {
    ghost from_gives = { λ _ fault. fault ≡ Memory };

    fn from(_: AllocError) -> Self {
        PartsFault::Memory
    }
}

/// The most copies of a chain of this weighted length whose sides a fatgraph may have.
fn most_copies(length: u64) -> u128
    requires { length ≤ MAX_SIDES }
    ensures some { 1 ≤ result }
    ensures few { result ≤ MAX_COPIES }
    ensures within { (n : ℕ) → n ≤ result → n * length ≤ MAX_SIDES }
    ensures over { (n : ℕ) → 0 < length → result < n → MAX_SIDES < n * length }
{
    u128::from(MAX_SIDES as u64 / length.max(1))
}

/// The least number of copies for which each value is whole, or the first part whose denominator leads to too many
/// sides.
fn least_multiple(chain: &Chain, parts: &[Part]) -> Result<u32, PartsFault>
    requires few { length parts.now < 2 ^ 32 }
    requires whole { weighted_length chain.now ≡ 0 → AllByRecursion (λ p. denominator p.value ≡ pos 1) parts.now }
    ensures least { IfOk result (IsLeastCommon parts.now) }
    ensures few { IfOk result (λ n. n ≤ MAX_COPIES) }
    ensures within { IfOk result (λ n. n * weighted_length chain.now ≤ MAX_SIDES) }
    ensures faults { IfErr result (IsFaultOf chain.now parts.now) }
{
    let limit = most_copies(chain.length());
    let mut so_far = 1;
    for (i, part) in parts.iter().enumerate() {
        let next = part.value.den();
        match lcm_within(so_far, next.unsigned_abs(), limit) {
            Some(multiple) => so_far = multiple,
            None => {
                return Err(PartsFault::Sides {
                    part: i as u32,
                    so_far: so_far as u32,
                    next,
                });
            }
        }
    }
    Ok(so_far as u32)
}

/// How often a part of this value stands over `n` copies.
fn times(n: u32, value: &Frac) -> u32
    requires { IsCountable n value.now }
    ensures { IsTimes n value.now (pos result) }
{
    let (num, den) = (value.num().unsigned_abs(), value.den().unsigned_abs());
    (u128::from(n) / den * num) as u32
}

/// How often each part stands over `n` copies.
fn counts_of(alloc: Global, n: u32, parts: &[Part]) -> Result<Vec<u32>, AllocError>
    requires { AllByRecursion (λ p. IsCountable n p.value) parts.now }
    ensures { IfOk result (λ counts. AreCounts n parts.now counts.items) }
{
    let mut counts = Vec::with_capacity(alloc, parts.len())?;
    for part in parts {
        counts.push(times(n, &part.value))?;
    }
    Ok(counts)
}

/// The least number of copies of the chain for which each part stands a whole number of times, with these numbers. It
/// is refused where so many copies have more sides than a fatgraph may have.
pub fn multiples(alloc: Global, chain: &Chain, parts: Vec<Part>) -> Result<Multiples, PartsFault>
    requires few { length parts.items < 2 ^ 32 }
    requires values { AreValues chain.now parts.items }
    ensures least { IfOk result (λ m. IsLeastWhole parts.items m.n) }
    ensures few { IfOk result (λ m. m.n ≤ MAX_COPIES) }
    ensures within { IfOk result (λ m. m.n * weighted_length chain.now ≤ MAX_SIDES) }
    ensures parts { IfOk result (λ m. m.parts.items ≡ parts.items) }
    ensures counts { IfOk result (λ m. AreCounts m.n parts.items m.counts.items) }
    ensures balanced { IfOk result (λ m. AreBalanced chain.now m.n (counted parts.items m.counts.items)) }
    ensures faults { IfErr result (IsFaultOf chain.now parts.items) }
{
    let n = least_multiple(chain, parts.as_slice())?;
    let counts = counts_of(alloc, n, parts.as_slice())?;
    Ok(Multiples { n, parts, counts })
}
