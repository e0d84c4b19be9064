//! Vertices: the orbits of `turn`, counted with a mark for each side.

ghost use Rattle.std.specs.Prelude.{◌≡◌, ℕ, ◌^◌, ◌<◌, false, ◌⊎◌, length, get_or};
ghost use Rattle.sc_theory.specs.Fatgraphs.{vertices};
ghost use Rattle.sc_fatgraph.specs.inside.Orbits.{IsRibbon, IsInOrbit, IsMarked, IsClosed};

use crate::Side;

/// Marks the sides of the orbit of `start`, up to the first that is marked already.
fn mark_orbit(sides: &[Side], marks: &mut [bool], start: u32)
    requires ribbon { IsRibbon sides.now }
    requires as_many { length marks.old ≡ length sides.now }
    requires in_range { start < length sides.now }
    requires closed { IsClosed sides.now marks.old }
    ensures still_closed { IsClosed sides.now marks.new }
    ensures marked { IsMarked marks.new start }
    ensures kept { (s : ℕ) → IsMarked marks.old s → IsMarked marks.new s }
    ensures in_orbit { (s : ℕ) → IsMarked marks.new s → IsMarked marks.old s ⊎ IsInOrbit sides.now start s }
{
    let mut side = start;
    while !marks[side as usize] {
        marks[side as usize] = true;
        let next = sides[side as usize].next;
        side = sides[next as usize].mate;
    }
}

/// The number of vertices. The marks are the caller's, one for each side and none made.
pub(crate) fn count_vertices(sides: &[Side], marks: &mut [bool]) -> u32
    requires ribbon { IsRibbon sides.now }
    requires few { length sides.now < 2 ^ 32 }
    requires as_many { length marks.old ≡ length sides.now }
    requires unmarked { (s : ℕ) → get_or marks.old s false ≡ false }
    ensures { result ≡ vertices sides.now }
{
    let mut vertices = 0;
    for start in 0..sides.len() as u32 {
        if !marks[start as usize] {
            mark_orbit(sides, marks, start);
            vertices += 1;
        }
    }
    vertices
}
