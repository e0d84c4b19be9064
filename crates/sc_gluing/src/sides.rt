//! The surface that is glued of closed walks laid one behind another.

ghost use Rattle.std.specs.Prelude.{◌≡◌, ℕ, ◌*◌, ◌<◌, ◌^◌, length, get_or, IfOk};
ghost use Rattle.sc_theory.specs.Chains.{positions};
ghost use Rattle.sc_gluing.specs.Gluing.{IsGlued};
ghost use Rattle.sc_gluing.specs.Sides.{AreGlueable};
ghost use Rattle.sc_gluing.specs.inside.Sides.{AreInside, AreKinds, AreOpposites, AreMatchedSides, AreMates, AreSides};

use crate::laying::Laid;
use crate::matching::partners_of;
use sc_chain::Chain;
use sc_theory::Side;
use std::alloc::{AllocError, Global};

/// The kind of the step that begins at each side: a number for each two positions.
fn kinds_of(
    alloc: Global,
    chain: &Chain,
    labels: &[u32],
    afters: &[u32],
) -> Result<Vec<u32>, AllocError>
    requires { AreInside (positions chain.now) labels.now afters.now }
    ensures { IfOk result (λ kinds. AreKinds chain.now labels.now afters.now (length labels.now) kinds.items) }
{
    let positions = chain.positions();
    let mut kinds = Vec::with_capacity(alloc, labels.len())?;
    for (side, label) in labels.iter().enumerate() {
        let from = *label as usize;
        let to = labels[afters[side] as usize] as usize;
        kinds.push((from * positions + to) as u32)?;
    }
    Ok(kinds)
}

/// The kind of the steps that are matched with the one that begins at each side.
fn opposites_of(
    alloc: Global,
    chain: &Chain,
    labels: &[u32],
    afters: &[u32],
) -> Result<Vec<u32>, AllocError>
    requires { AreInside (positions chain.now) labels.now afters.now }
    ensures { IfOk result (λ opposites. AreOpposites chain.now labels.now afters.now (length labels.now) opposites.items) }
{
    let positions = chain.positions();
    let mut opposites = Vec::with_capacity(alloc, labels.len())?;
    for (side, label) in labels.iter().enumerate() {
        let to = chain.succ(*label as usize);
        let from = chain.prev(labels[afters[side] as usize] as usize);
        opposites.push((from * positions + to) as u32)?;
    }
    Ok(opposites)
}

/// Makes the sides mates at which the steps of each side and of its partner end.
fn write_mates(afters: &[u32], partners: &[u32], mates: &mut [u32])
    requires room { length mates.old ≡ length afters.now }
    requires as_many { length partners.now ≡ length afters.now }
    requires afters { (s : ℕ) → s < length afters.now → get_or afters.now s 0 < length afters.now }
    requires partners { (s : ℕ) → s < length afters.now → get_or partners.now s 0 < length afters.now }
    requires apart { (s t : ℕ) → s < length afters.now → t < length afters.now → get_or afters.now s 0 ≡ get_or afters.now t 0 → s ≡ t }
    ensures { AreMates afters.now partners.now (length afters.now) mates.new }
{
    for (side, after) in afters.iter().enumerate() {
        mates[*after as usize] = afters[partners[side] as usize];
    }
}

/// The mate of each side.
fn mates_of(alloc: Global, afters: &[u32], partners: &[u32]) -> Result<Vec<u32>, AllocError>
    requires as_many { length partners.now ≡ length afters.now }
    requires afters { (s : ℕ) → s < length afters.now → get_or afters.now s 0 < length afters.now }
    requires partners { (s : ℕ) → s < length afters.now → get_or partners.now s 0 < length afters.now }
    requires apart { (s t : ℕ) → s < length afters.now → t < length afters.now → get_or afters.now s 0 ≡ get_or afters.now t 0 → s ≡ t }
    ensures { IfOk result (λ mates. AreMates afters.now partners.now (length afters.now) mates.items) }
{
    let mut mates = vec![in alloc; 0; afters.len()]?;
    write_mates(afters, partners, mates.as_mut_slice());
    Ok(mates)
}

/// The sides: the next of each is the mate of the one that follows it.
fn sides_of(
    alloc: Global,
    labels: &[u32],
    afters: &[u32],
    mates: &[u32],
) -> Result<Vec<Side>, AllocError>
    requires as_many { length mates.now ≡ length labels.now }
    requires as_many_afters { length afters.now ≡ length labels.now }
    requires afters { (s : ℕ) → s < length labels.now → get_or afters.now s 0 < length labels.now }
    ensures { IfOk result (λ sides. AreSides labels.now afters.now mates.now (length labels.now) sides.items) }
{
    let mut sides = Vec::with_capacity(alloc, labels.len())?;
    for (side, label) in labels.iter().enumerate() {
        sides.push(Side {
            label: *label,
            mate: mates[side],
            next: mates[afters[side] as usize],
        })?;
    }
    Ok(sides)
}

/// The side whose step is matched with that of each side.
fn matched_sides(
    alloc: Global,
    chain: &Chain,
    labels: &[u32],
    afters: &[u32],
) -> Result<Vec<u32>, AllocError>
    requires few { length labels.now < 2 ^ 32 }
    requires glueable { AreGlueable chain.now labels.now afters.now }
    ensures { IfOk result (λ partners. AreMatchedSides chain.now labels.now afters.now partners.items) }
{
    let positions = chain.positions();
    let kinds = kinds_of(alloc, chain, labels, afters)?;
    let opposites = opposites_of(alloc, chain, labels, afters)?;
    partners_of(
        alloc,
        kinds.as_slice(),
        opposites.as_slice(),
        positions * positions,
    )
}

/// The surface that is glued of closed walks laid one behind another.
pub fn glue_laid(alloc: Global, chain: &Chain, laid: &Laid) -> Result<Vec<Side>, AllocError>
    requires few { length laid.now.labels.items < 2 ^ 32 }
    requires glueable { AreGlueable chain.now laid.now.labels.items laid.now.afters.items }
    ensures { (is : AreGlueable chain.now laid.now.labels.items laid.now.afters.items) → IfOk result (λ sides. IsGlued chain.now is.cycles sides.items) }
{
    let (labels, afters) = (laid.labels.as_slice(), laid.afters.as_slice());
    let partners = matched_sides(alloc, chain, labels, afters)?;
    let mates = mates_of(alloc, afters, partners.as_slice())?;
    sides_of(alloc, labels, afters, mates.as_slice())
}
