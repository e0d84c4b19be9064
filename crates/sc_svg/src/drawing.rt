//! The drawing of a fatgraph.

ghost use Rattle.std.specs.Prelude.{◌≡◌, ℕ, ◌+◌, ◌<◌, ◌≤◌, ◌++◌, nat_lt, length, OnOk, IfOk};
ghost use Rattle.std.specs.List.{flat_map};
ghost use Rattle.sc_theory.specs.Chains.{letter, positions};
ghost use Rattle.sc_theory.specs.Fatgraphs.{label, mate};
ghost use Rattle.sc_words.specs.Spelling as spelling;
ghost use Rattle.sc_shape.specs.Classes.{entry};
ghost use Rattle.sc_shape.specs.Shapes.{list_below};
ghost use Rattle.sc_shape.specs.SideLists.{is_own};
ghost use Rattle.sc_svg.specs.Drawings as drawings;

use crate::layout::lay_out;
use crate::lines::{print_edge, print_head, print_letter, print_vertex};
use sc_chain::Chain;
use sc_fatgraph::limits::MAX_SIDES;
use sc_fatgraph::{Fatgraph, Side};
use std::alloc::{AllocError, Global};

/// Appends the line of each vertex.
fn print_vertices(
    least: &[u32],
    lasts: &[u32],
    xs: &[u32],
    base: u32,
    out: &mut Vec<u8>,
) -> Result<(), AllocError>
    requires as_many { length xs.now ≡ length least.now }
    requires as_many_lasts { length lasts.now ≡ length least.now }
    requires inside { (s : ℕ) → s < length least.now → entry least.now s ≡ s → entry lasts.now s < length least.now }
    ensures { OnOk result (out.new.items ≡ out.old.items ++ flat_map (λ r. drawings.vertex_line (entry xs.now r) (entry xs.now (entry lasts.now r)) base) (list_below (is_own least.now) (length least.now))) }
{
    for (side, own) in least.iter().enumerate() {
        if *own as usize == side {
            print_vertex(xs[side], xs[lasts[side] as usize], base, out)?;
        }
    }
    Ok(())
}

/// Appends the line of each edge, in the order of its lesser side.
fn print_edges(sides: &[Side], xs: &[u32], base: u32, out: &mut Vec<u8>) -> Result<(), AllocError>
    requires as_many { length xs.now ≡ length sides.now }
    requires inside { (s : ℕ) → s < length sides.now → mate sides.now s < length sides.now }
    ensures { OnOk result (out.new.items ≡ out.old.items ++ flat_map (λ s. drawings.edge_line (entry xs.now s) (entry xs.now (mate sides.now s)) base) (list_below (λ s. nat_lt s (mate sides.now s)) (length sides.now))) }
{
    for (number, side) in sides.iter().enumerate() {
        if number < side.mate as usize {
            print_edge(xs[number], xs[side.mate as usize], base, out)?;
        }
    }
    Ok(())
}

/// Appends the line of each letter, in the order in which the sides stand.
fn print_letters(
    chain: &Chain,
    sides: &[Side],
    order: &[u32],
    xs: &[u32],
    y: u32,
    out: &mut Vec<u8>,
) -> Result<(), AllocError>
    requires as_many { length xs.now ≡ length sides.now }
    requires inside { (k : ℕ) → k < length order.now → entry order.now k < length sides.now }
    requires labels { (s : ℕ) → s < length sides.now → label sides.now s < positions chain.now }
    ensures { OnOk result (out.new.items ≡ out.old.items ++ flat_map (λ s. drawings.letter_line (entry xs.now s) y (spelling.letter_byte (letter chain.now (label sides.now s)))) order.now) }
{
    for side in order {
        let letter = chain.letter(sides[*side as usize].label as usize);
        print_letter(xs[*side as usize], y, letter, out)?;
    }
    Ok(())
}

/// The drawing of a fatgraph: its vertices as lines side by side, in the order of their least sides, with the letter
/// of each side below it, and its edges as arcs between their two sides.
pub fn draw(alloc: Global, fatgraph: &Fatgraph) -> Result<Vec<u8>, AllocError>
    ensures { IfOk result (λ bytes. drawings.IsDrawing fatgraph.now.chain fatgraph.now.sides bytes.items) }
{
    let layout = lay_out(alloc, fatgraph)?;
    let sides = fatgraph.sides().as_slice();
    let xs = layout.xs.as_slice();
    let places = fatgraph.len() + layout.vertices;
    let base = 10 * places + 20;
    let mut out = Vec::new(alloc);
    print_head(20 * places + 20, base + 24, &mut out)?;
    print_vertices(
        layout.least.as_slice(),
        layout.lasts.as_slice(),
        xs,
        base,
        &mut out,
    )?;
    print_edges(sides, xs, base, &mut out)?;
    print_letters(
        fatgraph.chain(),
        sides,
        layout.order.as_slice(),
        xs,
        base + 16,
        &mut out,
    )?;
    out.extend_from_slice(b"</svg>\n")?;
    Ok(out)
}
