//! The inverse pairs of a chain: the pairs of positions with inverse letters, by the lesser position, then the greater.

ghost use Rattle.std.specs.Prelude.{◌≡◌, ◌<◌, ◌≤◌, ◌*◌, ◌++◌, ◌↔◌, length, map, filter, get_or, IfOk, OnOk, IfSome, IsSome};
ghost use Rattle.sc_theory.specs.Words.{inverse_letter};
ghost use Rattle.sc_theory.specs.Chains.{Chain as AnyChain, positions, letter};
ghost use Rattle.sc_theory.specs.Prices.{pairs, is_pair, all_positions};
ghost use Rattle.sc_chain.specs.declared.limits.TheConstants.{MAX_POSITIONS};
ghost use Rattle.sc_chain.specs.Pairs.{place_in, row_in};
ghost use Rattle.sc_chain.specs.PairPlaces.{ArePairsBelow, ArePlacesOf};

use crate::chain::Chain;
use crate::sign::Sign;
use sc_words::is_inverse;
use std::alloc::{AllocError, Global};
use std::marker::Model;

/// The inverse pairs of a chain, numbered from 0, with the places by which the number of a pair is looked up. The
/// number of a pair is its row.
#[derive(Debug, Drop)]
pub struct Pairs {
    positions: usize,
    pairs: Vec<(usize, usize)>,
    places: Vec<Option<usize>>,
}

impl Model for Pairs {
    ghost use Rattle.std.specs.Prelude.{ℕ, List};

    ghost Value = { List (ℕ × ℕ) };

    ghost use Rattle.sc_chain.specs.PairPlaces.{ArePairPlaces};

    ghost view = { λ c. c.pairs.items };

    ghost invariant = { ArePairPlaces };
}

/// Writes the pairs whose lesser position is p behind the others.
fn append_pairs(pairs: &mut Vec<(usize, usize)>, chain: &Chain, p: usize) -> Result<(), AllocError>
    requires { p < positions chain.now }
    ensures { OnOk result
        (pairs.new.items ≡ pairs.old.items ++ map (λ q. (p, q)) (filter (is_pair chain.now p) (all_positions chain.now))) }
{
    let positions = chain.positions();
    for q in p + 1..positions {
        if is_inverse(chain.letter(p), chain.letter(q)) {
            pairs.push((p, q))?;
        }
    }
    Ok(())
}

/// The inverse pairs of a chain.
fn inverse_pairs(alloc: Global, chain: &Chain) -> Result<Vec<(usize, usize)>, AllocError>
    ensures { IfOk result (λ found. found.items ≡ pairs chain.now) }
{
    let mut found = Vec::new(alloc);
    for p in 0..chain.positions() {
        append_pairs(&mut found, chain, p)?;
    }
    Ok(found)
}

/// The place of each two positions in a list of pairs, by the first of them, then the second.
fn places_of(
    alloc: Global,
    pairs: &[(usize, usize)],
    positions: usize,
) -> Result<Vec<Option<usize>>, AllocError>
    requires few { positions ≤ MAX_POSITIONS }
    requires pairs { ArePairsBelow pairs.now positions }
    ensures { IfOk result (λ places. ArePlacesOf pairs.now positions places.items) }
{
    let mut places = vec![in alloc; None; positions * positions]?;
    for (place, (p, q)) in pairs.iter().enumerate() {
        places[*p * positions + *q] = Some(place);
    }
    Ok(places)
}

impl Pairs {
    /// The inverse pairs of a chain.
    pub fn of(alloc: Global, chain: &Chain) -> Result<Pairs, AllocError>
        ensures { IfOk result (λ p. p ≡ pairs chain.now) }
    {
        let positions = chain.positions();
        let pairs = inverse_pairs(alloc, chain)?;
        let places = places_of(alloc, pairs.as_slice(), positions)?;
        Ok(Pairs {
            positions,
            pairs,
            places,
        })
    }

    /// How many pairs there are.
    pub fn count(&self) -> usize
        ensures count { result ≡ length self.now }
        ensures few { length self.now ≤ MAX_POSITIONS * MAX_POSITIONS }
    {
        self.pairs.len()
    }

    /// The positions of a pair, the lesser one first.
    pub fn pair_at(&self, row: usize) -> (usize, usize)
        requires { row < length self.now }
        ensures pair { result ≡ get_or self.now row (0, 0) }
        ensures row { row_in self.now result.0 result.1 ≡ Some (row, Sign.Plus) }
        ensures ordered { result.0 < result.1 }
        ensures in_range { result.1 < MAX_POSITIONS }
    {
        self.pairs[row]
    }

    /// The place of a pair, if there is such a pair.
    fn place(&self, p: usize, q: usize) -> Option<usize>
        ensures { result ≡ place_in self.now p q }
    {
        if p < self.positions && q < self.positions {
            self.places[p * self.positions + q]
        } else {
            None
        }
    }

    /// The row of two positions, with Plus where p is the lesser one, and Minus where q is. There is none exactly where
    /// their letters aren't inverse.
    pub fn row_of(&self, p: usize, q: usize) -> Option<(usize, Sign)>
        ensures row { result ≡ row_in self.now p q }
        ensures in_range { IfSome result (λ found. found.0 < length self.now) }
        ensures inverse { (c : AnyChain) → self.now ≡ pairs c → p < positions c → q < positions c →
            (IsSome result ↔ (letter c q ≡ inverse_letter (letter c p))) }
    {
        match self.place(p, q) {
            Some(row) => Some((row, Sign::Plus)),
            None => self.place(q, p).map(|row| (row, Sign::Minus)),
        }
    }
}
