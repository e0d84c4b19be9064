//! A search for a surface with many vertices: from any way to put the sides together in twos, exchanges of mates that
//! don't lower the number of vertices.

ghost use Rattle.std.specs.Prelude.{◌<◌};
ghost use Rattle.sc_theory.specs.Chains.{positions};

use crate::cycles::cycles_of;
use crate::limits::{MAX_SIDES, MAX_SWAPS, SWAPS_A_SIDE};
use crate::orbits::{are_together, image, orbits, swap_images};
use sc_chain::Chain;
use sc_chain::limits::GENERATORS;
use std::alloc::{AllocError, Global};

/// Where the sequence of drawn numbers begins.
const FIRST_DRAWN: u64 = 0x9E37_79B9_7F4A_7C15;

/// Numbers that are drawn, always the same ones.
#[derive(Drop)]
struct Draw {
    state: u64,
}

impl Draw {
    /// The next number below a bound, and 0 where that is 0.
    fn below(&mut self, bound: usize) -> usize {
        self.state ^= self.state.wrapping_shl(13);
        self.state ^= self.state.wrapping_shr(7);
        self.state ^= self.state.wrapping_shl(17);
        let bound = u64::try_from(bound).unwrap_or(0);
        let drawn = self.state.checked_rem(bound).unwrap_or(0);
        usize::try_from(drawn).unwrap_or(0)
    }
}

/// The sides of copies of the words, and how they go round them.
#[derive(Drop)]
struct Sides {
    /// The position of each side.
    positions: Vec<u32>,
    /// The side after each round its copy.
    next: Vec<usize>,
    /// The side before each.
    previous: Vec<usize>,
    /// The sides of each letter.
    groups: Vec<Vec<usize>>,
    /// The letter of each side: the place of its group.
    letters: Vec<usize>,
}

/// A surface: sides, put together in twos.
#[derive(Drop)]
struct Surface {
    sides: Sides,
    /// The side that each is put together with.
    mates: Vec<usize>,
    /// Where each side is taken round its vertex.
    turn: Vec<usize>,
    /// How many vertices there are.
    vertices: usize,
}

/// The place of the group of the letter at a position; the inverse of a letter has the place next to it.
fn group_of(chain: &Chain, position: usize) -> usize
    requires { position < positions chain.now }
{
    let letter = chain.letter(position);
    usize::from(letter.number)
        .saturating_mul(2)
        .saturating_add(usize::from(letter.inverse))
}

impl Sides {
    /// No sides.
    fn new(alloc: Global) -> Result<Sides, AllocError> {
        let mut groups = Vec::new(alloc);
        for _letter in 0..GENERATORS {
            groups.push(Vec::new(alloc))?;
            groups.push(Vec::new(alloc))?;
        }
        Ok(Sides {
            positions: Vec::new(alloc),
            next: Vec::new(alloc),
            previous: Vec::new(alloc),
            groups,
            letters: Vec::new(alloc),
        })
    }

    /// Adds a side at a position of a word whose first position has the side `first`.
    fn add_side(&mut self, chain: &Chain, position: usize, first: usize) -> Result<(), AllocError>
        requires { position < positions chain.now }
    {
        let side = self.positions.len();
        let start = chain.first_of(chain.word_of(position));
        let group = group_of(chain, position);
        self.next.push(first.saturating_add(chain.succ(position).saturating_sub(start)))?;
        self.previous.push(first.saturating_add(chain.prev(position).saturating_sub(start)))?;
        self.letters.push(group)?;
        if let Some(sides) = self.groups.get_mut(group) {
            sides.push(side)?;
        }
        self.positions.push(u32::try_from(position).unwrap_or(0))?;
        Ok(())
    }

    /// Adds the sides of a copy of a word.
    fn add_copy(&mut self, chain: &Chain, word: usize) -> Result<(), AllocError> {
        let first = self.positions.len();
        for position in 0..chain.positions() {
            if chain.word_of(position) == word {
                self.add_side(chain, position, first)?;
            }
        }
        Ok(())
    }

    /// Adds the sides of so many copies of a word.
    fn add_copies(&mut self, chain: &Chain, word: usize, copies: u64) -> Result<(), AllocError> {
        for _copy in 0..copies {
            self.add_copy(chain, word)?;
        }
        Ok(())
    }

    /// The sides of so many copies of a chain.
    fn of(alloc: Global, chain: &Chain, copies: u64) -> Result<Sides, AllocError> {
        let mut sides = Sides::new(alloc)?;
        for (word, entry) in chain.entries().iter().enumerate() {
            let copies = u64::from(entry.0).saturating_mul(copies);
            sides.add_copies(chain, word, copies)?;
        }
        Ok(sides)
    }

    /// For each side one of the inverse letter, in order, if there are as many.
    fn mates(&self, alloc: Global) -> Result<Option<Vec<usize>>, AllocError> {
        let mut mates = vec![in alloc; 0_usize; self.positions.len()]?;
        for letter in 0..GENERATORS {
            let place = usize::from(letter).saturating_mul(2);
            let plain = self.groups.get(place);
            let inverse = self.groups.get(place.saturating_add(1));
            if let (Some(plain), Some(inverse)) = (plain, inverse) {
                if plain.len() != inverse.len() {
                    return Ok(None);
                }
                join(mates.as_mut_slice(), plain.as_slice(), inverse.as_slice());
            }
        }
        Ok(Some(mates))
    }
}

/// Makes the sides of two lists mates, in order.
fn join(mates: &mut [usize], sides: &[usize], others: &[usize]) {
    for (side, other) in sides.iter().zip(others) {
        set(mates, *side, *other);
        set(mates, *other, *side);
    }
}

impl Surface {
    /// Some surface over so many copies of a chain, if it is balanced.
    fn of(alloc: Global, chain: &Chain, copies: u64) -> Result<Option<Surface>, AllocError> {
        let sides = Sides::of(alloc, chain, copies)?;
        let Some(mates) = sides.mates(alloc)? else {
            return Ok(None);
        };
        let turn: Vec<usize> = sides
            .next
            .iter()
            .map(|next| image(mates.as_slice(), *next))
            .collect(alloc)?;
        let vertices = orbits(alloc, turn.as_slice())?.len();
        Ok(Some(Surface {
            sides,
            mates,
            turn,
            vertices,
        }))
    }

    /// Exchanges where two sides are taken. Answers whether that made a vertex of two, and not one of two.
    fn exchange_turns(&mut self, side: usize, other: usize) -> bool {
        let splits = are_together(self.turn.as_slice(), side, other);
        swap_images(self.turn.as_mut_slice(), side, other);
        splits
    }

    /// Exchanges the mates of two sides of one letter, unless that lowers the number of vertices.
    fn exchange_mates(&mut self, side: usize, other: usize) {
        let before = self.sides.previous.as_slice();
        let (mate, other_mate) = (
            image(self.mates.as_slice(), side),
            image(self.mates.as_slice(), other),
        );
        let (a, b) = (image(before, side), image(before, other));
        let (c, d) = (image(before, mate), image(before, other_mate));
        let first = self.exchange_turns(a, b);
        let second = self.exchange_turns(c, d);
        if !first && !second {
            swap_images(self.turn.as_mut_slice(), c, d);
            swap_images(self.turn.as_mut_slice(), a, b);
            return;
        }
        if first && second {
            self.vertices = self.vertices.saturating_add(2);
        }
        swap_images(self.mates.as_mut_slice(), side, other);
        swap_images(self.mates.as_mut_slice(), mate, other_mate);
    }

    /// Draws two sides of one letter.
    fn draw_sides(&self, draw: &mut Draw) -> Option<(usize, usize)> {
        let side = draw.below(self.sides.positions.len());
        let group = self.sides.groups.get(*self.sides.letters.get(side)?)?;
        let other = *group.get(draw.below(group.len()))?;
        if side == other {
            None
        } else {
            Some((side, other))
        }
    }

    /// How many exchanges of mates are tried.
    fn swaps(&self) -> u32 {
        u32::try_from(self.sides.positions.len())
            .unwrap_or(u32::MAX)
            .saturating_mul(SWAPS_A_SIDE)
            .min(MAX_SWAPS)
    }

    /// Tries exchanges of mates.
    fn improve(&mut self) {
        let mut draw = Draw { state: FIRST_DRAWN };
        for _swap in 0..self.swaps() {
            if let Some((side, other)) = self.draw_sides(&mut draw) {
                self.exchange_mates(side, other);
            }
        }
    }

    /// The positions round a vertex.
    fn positions_of(&self, alloc: Global, orbit: &[usize]) -> Result<Vec<u32>, AllocError> {
        orbit
            .iter()
            .map(|side| self.sides.positions.get(*side).copied().unwrap_or(0))
            .collect(alloc)
    }

    /// The cycles round the vertices.
    fn walks(&self, alloc: Global) -> Result<Vec<Vec<u32>>, AllocError> {
        let mut walks = Vec::new(alloc);
        for orbit in orbits(alloc, self.turn.as_slice())? {
            let walk = self.positions_of(alloc, orbit.as_slice())?;
            walks.append(&mut cycles_of(alloc, walk.as_slice())?)?;
        }
        Ok(walks)
    }
}

/// Writes an entry of a list, if there is such a place.
fn set(list: &mut [usize], place: usize, value: usize) {
    if let Some(entry) = list.get_mut(place) {
        *entry = value;
    }
}

/// A good surface over so many copies of a chain, unless it would have too many sides.
fn good_surface(alloc: Global, chain: &Chain, copies: u64) -> Result<Option<Surface>, AllocError> {
    if chain.length().saturating_mul(copies) > MAX_SIDES {
        return Ok(None);
    }
    let Some(mut surface) = Surface::of(alloc, chain, copies)? else {
        return Ok(None);
    };
    surface.improve();
    Ok(Some(surface))
}

/// The cycles round the vertices of a good surface, and none where no surface is found.
pub(crate) fn surface_walks(alloc: Global, chain: &Chain) -> Result<Vec<Vec<u32>>, AllocError> {
    let Some(one) = good_surface(alloc, chain, 1)? else {
        return Ok(Vec::new(alloc));
    };
    match good_surface(alloc, chain, 2)? {
        Some(two) if two.vertices > one.vertices.saturating_mul(2) => two.walks(alloc),
        _ => one.walks(alloc),
    }
}
