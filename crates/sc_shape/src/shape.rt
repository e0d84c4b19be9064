//! The components of a fatgraph with their boundaries.

ghost use Rattle.std.specs.Prelude.{◌≡◌, ℕ, ◌/◌, ◌<◌, ◌^◌, true, List, length, map, OnOk, IfOk};
ghost use Rattle.sc_theory.specs.Chains.{IsChain, positions, word, word_of};
ghost use Rattle.sc_theory.specs.Fatgraphs.{label};
ghost use Rattle.sc_chain.specs.Faults.{IsSmallChain};
ghost use Rattle.sc_shape.specs.Classes.{entry};
ghost use Rattle.sc_shape.specs.Shapes.{AreComponents, list_below};
ghost use Rattle.sc_shape.specs.inside.SideLists.{AreLeasts, AreTallies, AreAtPlaces, ArePlaces, PointInside, bare, boundary_with, with_boundaries};
ghost use Rattle.sc_shape.specs.SideLists.{is_own};

use crate::component::{Boundaries, Boundary, Component};
use crate::steps::{Leasts, leasts_of};
use crate::tallies::{inner_classes_of, sizes_of};
use sc_chain::{Chain, Word};
use sc_fatgraph::{Fatgraph, Side};
use std::alloc::{AllocError, Global};

/// The components in order, as yet without boundaries; the place of each is written at its least side.
fn bare_components(
    alloc: Global,
    components: &[u32],
    sizes: &[u32],
    vertices: &[u32],
    places: &mut [u32],
) -> Result<Vec<Component>, AllocError>
    requires few { length components.now < 2 ^ 32 }
    requires as_many_sizes { length sizes.now ≡ length components.now }
    requires as_many_vertices { length vertices.now ≡ length components.now }
    requires as_many_places { length places.old ≡ length components.now }
    ensures found { IfOk result (λ found. found.items ≡ map (bare sizes.now vertices.now) (list_below (is_own components.now) (length components.now))) }
    ensures places { OnOk result (ArePlaces components.now (length components.now) places.new) }
{
    let mut found = Vec::new(alloc);
    for (side, least) in components.iter().enumerate() {
        if *least as usize == side {
            places[side] = found.len() as u32;
            found.push(Component {
                least: *least,
                sides: sizes[side],
                vertices: vertices[side],
                edges: sizes[side] / 2,
                boundaries: Boundaries::new(alloc),
            })?;
        }
    }
    Ok(found)
}

// The words of a chain, each behind its weight.
fn entries_of(chain: &Chain) -> &[(u32, Word)]
    ensures words { result.now ≡ chain.now }
    ensures small { IsSmallChain chain.now }
{
    let entries = chain.entries();
    let count = chain.words();
    prove!(entries.len() == count);
    entries
}

/// The boundary with this least side and so many sides.
fn boundary_at(chain: &Chain, least: u32, side: Side, size: u32) -> Boundary
    requires { side.label < positions chain.now }
    ensures least { result.least ≡ least }
    ensures word { result.word ≡ word_of chain.now side.label }
    ensures degree { result.degree ≡ size / length (word chain.now (word_of chain.now side.label)) }
{
    let word = chain.word_of(side.label as usize);
    let letters = entries_of(chain)[word].1.len();
    Boundary {
        least,
        word: word as u32,
        degree: size / letters as u32,
    }
}

/// Puts each boundary behind those of its component.
fn add_boundaries(
    chain: &Chain,
    sides: &[Side],
    components: &[u32],
    boundaries: &[u32],
    lengths: &[u32],
    places: &[u32],
    found: &mut Vec<Component>,
) -> Result<(), AllocError>
    requires few { length sides.now < 2 ^ 32 }
    requires labels { (s : ℕ) → s < length sides.now → label sides.now s < positions chain.now }
    requires as_many_components { length components.now ≡ length sides.now }
    requires as_many_boundaries { length boundaries.now ≡ length sides.now }
    requires as_many_lengths { length lengths.now ≡ length sides.now }
    requires as_many_places { length places.now ≡ length sides.now }
    requires inside { PointInside components.now }
    requires at_places { AreAtPlaces components.now places.now found.old.items }
    ensures { OnOk result (found.new.items ≡ map (with_boundaries chain.now sides.now components.now boundaries.now lengths.now (length sides.now)) found.old.items) }
{
    for (side, least) in boundaries.iter().enumerate() {
        if *least as usize == side {
            let boundary = boundary_at(chain, *least, sides[side], lengths[side]);
            let place = places[components[side] as usize] as usize;
            found[place].boundaries.push(boundary)?;
        }
    }
    Ok(())
}

/// The components of sides of which the least ones of the classes are known.
fn assembled(
    alloc: Global,
    chain: &Chain,
    sides: &[Side],
    leasts: &Leasts,
) -> Result<Vec<Component>, AllocError>
    requires few { length sides.now < 2 ^ 32 }
    requires labels { (s : ℕ) → s < length sides.now → label sides.now s < positions chain.now }
    requires leasts { AreLeasts sides.now leasts.now.components.items leasts.now.boundaries.items leasts.now.vertices.items }
    ensures { IfOk result (λ found. AreComponents chain.now sides.now found.items) }
{
    let components = leasts.components.as_slice();
    let boundaries = leasts.boundaries.as_slice();
    let sizes = sizes_of(alloc, components)?;
    let vertices = inner_classes_of(alloc, components, leasts.vertices.as_slice())?;
    let lengths = sizes_of(alloc, boundaries)?;
    let mut places = vec![in alloc; 0; sides.len()]?;
    let mut found = bare_components(
        alloc,
        components,
        sizes.as_slice(),
        vertices.as_slice(),
        places.as_mut_slice(),
    )?;
    add_boundaries(
        chain,
        sides,
        components,
        boundaries,
        lengths.as_slice(),
        places.as_slice(),
        &mut found,
    )?;
    Ok(found)
}

/// The components of a fatgraph, in the order of their least sides.
pub fn components(alloc: Global, fatgraph: &Fatgraph) -> Result<Vec<Component>, AllocError>
    ensures { IfOk result (λ found. AreComponents fatgraph.now.chain fatgraph.now.sides found.items) }
{
    let sides = fatgraph.sides().as_slice();
    let leasts = leasts_of(alloc, sides)?;
    let found = assembled(alloc, fatgraph.chain(), sides, &leasts)?;
    Ok(found)
}
