//! The matching of places whose kinds are opposite, in their order: in time and memory that grow with their number
//! alone. The places of each kind are a linked list; a cursor a kind goes along it once.

ghost use Rattle.std.specs.Prelude.{◌≡◌, ℕ, ◌<◌, ◌^◌, length, get_or, IfOk};
ghost use Rattle.sc_gluing.specs.Matching.{ArePartners, AreMatchable};
ghost use Rattle.sc_gluing.specs.inside.Matching.{AreLinked};

use std::alloc::{AllocError, Global};

/// Links the places of each kind: `firsts` gets the first place of each, and `following` the next one of the same kind
/// behind each place. The number of places stands for none.
fn link(kinds: &[u32], firsts: &mut [u32], following: &mut [u32])
    requires room { length following.old ≡ length kinds.now }
    requires few { length kinds.now < 2 ^ 32 }
    requires below { (s : ℕ) → s < length kinds.now → get_or kinds.now s 0 < length firsts.old }
    requires none { (k : ℕ) → k < length firsts.old → get_or firsts.old k 0 ≡ length kinds.now }
    ensures { AreLinked kinds.now 0 firsts.new following.new }
{
    for here in (0..kinds.len()).rev() {
        let kind = kinds[here] as usize;
        following[here] = firsts[kind];
        firsts[kind] = here as u32;
    }
}

/// Pairs the places up: the partner of each is the place of the opposite kind at which that kind's cursor stands, and
/// the cursor goes on.
fn pair_up(
    alloc: Global,
    kinds: &[u32],
    opposites: &[u32],
    cursors: &mut [u32],
    following: &[u32],
) -> Result<Vec<u32>, AllocError>
    requires matchable { AreMatchable kinds.now opposites.now (length cursors.old) }
    requires linked { AreLinked kinds.now 0 cursors.old following.now }
    ensures { IfOk result (λ partners. ArePartners kinds.now opposites.now partners.items) }
{
    let mut partners = Vec::with_capacity(alloc, kinds.len())?;
    for kind in opposites {
        let kind = *kind as usize;
        let partner = cursors[kind];
        partners.push(partner)?;
        cursors[kind] = following[partner as usize];
    }
    Ok(partners)
}

/// The partner of each place, where there are enough places of each kind.
pub fn partners_of(
    alloc: Global,
    kinds: &[u32],
    opposites: &[u32],
    bound: usize,
) -> Result<Vec<u32>, AllocError>
    requires few { length kinds.now < 2 ^ 32 }
    requires matchable { AreMatchable kinds.now opposites.now bound }
    ensures { IfOk result (λ partners. ArePartners kinds.now opposites.now partners.items) }
{
    let count = kinds.len();
    let mut firsts = vec![in alloc; count as u32; bound]?;
    let mut following = vec![in alloc; 0; count]?;
    link(kinds, firsts.as_mut_slice(), following.as_mut_slice());
    pair_up(
        alloc,
        kinds,
        opposites,
        firsts.as_mut_slice(),
        following.as_slice(),
    )
}
