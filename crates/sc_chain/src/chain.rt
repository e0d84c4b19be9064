//! Chains, and the lookup of their positions.

ghost use Rattle.std.specs.Prelude.{◌≡◌, ◌≢◌, ◌<◌, ◌≤◌, ◌^◌, ◌+◌, ◌↔◌, length, IsTrue, IfOk, IfSome, IsNone, IsErrOf, OnOk, MatchOption, vec_len};
ghost use Rattle.sc_theory.specs.Chains.{positions, weighted_length, letter, succ, prev, first, word_of, weight, chain_total, IsBalanced};
ghost use Rattle.sc_theory.specs.Walks.{IsStep};
ghost use Rattle.sc_chain.specs.declared.limits.TheConstants.{MAX_POSITIONS};
ghost use Rattle.sc_chain.specs.Balance.{IsFirstUnbalanced};
ghost use Rattle.sc_chain.specs.Faults.{AreGoodBelow};
ghost use Rattle.sc_chain.specs.inside.Lookup.{AppendsBelow};
ghost use Rattle.sc_chain.specs.Lookup.{IsLookup};

use crate::fault::ChainFault;
use crate::faults::{first_fault, weigh};
use crate::limits::GENERATORS;
use crate::totals::total_in_words;
use sc_words::{Letter, Word, is_inverse};
use std::alloc::{AllocError, Global};
use std::marker::Model;

/// What is known of a position: its letter, the positions after and before it round its word, and that word.
#[derive(Clone, Copy, Debug)]
struct Place {
    letter: Letter,
    next: usize,
    previous: usize,
    word: usize,
}

/// A list of nonempty reduced words with their weights, within the limits of `limits`. Its positions are numbered from
/// 0 through the words in their order, and the words from 0.
#[derive(Debug, Drop)]
pub struct Chain {
    words: Vec<(u32, Word)>,
    places: Vec<Place>,
    firsts: Vec<usize>,
    length: u64,
}

impl Model for Chain {
    ghost use Rattle.std.specs.Prelude.{ℕ, List};
    ghost use Rattle.sc_theory.specs.declared.Letter.{Letter};

    ghost Value = { List (ℕ × List Letter) };

    ghost use Rattle.sc_chain.specs.Kept.{IsInside};

    ghost view = { λ c. c.words.items };

    ghost invariant = { IsInside };
}

/// The lookup of a chain: an entry per position, and the first position of each word.
#[derive(Drop)]
struct Lookup {
    places: Vec<Place>,
    firsts: Vec<usize>,
}

/// Writes the entries of a word behind those of the words before it.
fn append_word(places: &mut Vec<Place>, word: &[Letter], number: usize) -> Result<(), AllocError>
    requires { vec_len places.old + length word.now < 2 ^ 64 }
    ensures { OnOk result (AppendsBelow places.old.items places.new.items word.now number (length word.now)) }
{
    let first = places.len();
    let end = first + word.len();
    for (place, letter) in word.iter().enumerate() {
        let here = first + place;
        places.push(Place {
            letter: *letter,
            next: if here + 1 == end { first } else { here + 1 },
            previous: if here == first { end - 1 } else { here - 1 },
            word: number,
        })?;
    }
    Ok(())
}

/// The same words with their weights once more.
fn copy_words(alloc: Global, words: &[(u32, Word)]) -> Result<Vec<(u32, Word)>, AllocError>
    ensures { IfOk result (λ copies. copies.items ≡ words.now) }
{
    let mut copies = Vec::with_capacity(alloc, words.len())?;
    for entry in words {
        copies.push((entry.0, entry.1.copy(alloc)?))?;
    }
    Ok(copies)
}

/// The lookup of a list of few words.
fn lookup_of(alloc: Global, words: &[(u32, Word)]) -> Result<Lookup, AllocError>
    requires few { positions words.now ≤ MAX_POSITIONS }
    requires good { AreGoodBelow words.now (length words.now) }
    ensures { IfOk result (λ l. IsLookup words.now l.places.items l.firsts.items) }
{
    let mut places = Vec::new(alloc);
    let mut firsts = Vec::new(alloc);
    for (number, entry) in words.iter().enumerate() {
        firsts.push(places.len())?;
        append_word(&mut places, entry.1.as_slice(), number)?;
    }
    Ok(Lookup { places, firsts })
}

impl Chain {
    ghost use Rattle.sc_chain.specs.Faults.{IsSmallChain, IsFaultOf, AreGenerators, IsAccepted};
    ghost use Rattle.sc_chain.specs.declared.fault.ChainFault.{ChainFault as AnyFault};

    /// The chain of these weights and words. It is refused where a word is empty or not reduced, the first such word
    /// deciding; then for too many words, too many positions, too great a weighted length, in this order.
    pub fn of_reduced(alloc: Global, words: Vec<(u32, Word)>) -> Result<Chain, ChainFault>
        requires generators { AreGenerators words.items }
        requires letters { positions words.items < 2 ^ 32 }
        ensures ok { IfOk result (λ c. c ≡ words.items) }
        ensures small { IfOk result IsSmallChain }
        ensures faults { (e : AnyFault) → e ≢ ChainFault.Memory → (IsErrOf result e ↔ IsFaultOf words.items e) }
    {
        match first_fault(words.as_slice()) {
            Some(fault) => Err(fault),
            None => Ok(Chain::of_accepted(alloc, words)?),
        }
    }

    /// The chain of a list of words without a fault.
    fn of_accepted(alloc: Global, words: Vec<(u32, Word)>) -> Result<Chain, AllocError>
        requires generators { AreGenerators words.items }
        requires accepted { IsAccepted words.items }
        ensures { IfOk result (λ c. c ≡ words.items) }
    {
        let length = weigh(words.as_slice());
        let Lookup { places, firsts } = lookup_of(alloc, words.as_slice())?;
        Ok(Chain {
            words,
            places,
            firsts,
            length,
        })
    }

    /// How many words there are.
    pub fn words(&self) -> usize
        ensures words { result ≡ length self.now }
        ensures small { IsSmallChain self.now }
    {
        self.words.len()
    }

    /// How many positions there are.
    pub fn positions(&self) -> usize
        ensures positions { result ≡ positions self.now }
        ensures small { IsSmallChain self.now }
    {
        self.places.len()
    }

    /// The sum of weight times number of letters over the words.
    pub fn length(&self) -> u64
        ensures length { result ≡ weighted_length self.now }
        ensures small { IsSmallChain self.now }
    {
        self.length
    }

    /// The letter at a position.
    pub fn letter(&self, i: usize) -> Letter
        requires { i < positions self.now }
        ensures letter { result ≡ letter self.now i }
        ensures generator { result.number < GENERATORS }
    {
        self.places[i].letter
    }

    /// The next position round its word.
    pub fn succ(&self, i: usize) -> usize
        requires { i < positions self.now }
        ensures succ { result ≡ succ self.now i }
        ensures in_range { result < positions self.now }
    {
        self.places[i].next
    }

    /// The position before it round its word.
    pub fn prev(&self, i: usize) -> usize
        requires { i < positions self.now }
        ensures prev { result ≡ prev self.now i }
        ensures in_range { result < positions self.now }
    {
        self.places[i].previous
    }

    /// Whether there is a step from i to j: the letter of j is the inverse of the letter after i.
    pub fn is_step(&self, i: usize, j: usize) -> bool
        requires from { i < positions self.now }
        requires to { j < positions self.now }
        ensures { IsTrue result ↔ IsStep self.now i j }
    {
        is_inverse(self.letter(self.succ(i)), self.letter(j))
    }

    /// The first position of a word.
    pub fn first_of(&self, w: usize) -> usize
        requires { w < length self.now }
        ensures first { result ≡ first self.now w }
        ensures in_range { result < positions self.now }
    {
        self.firsts[w]
    }

    /// The word in which a position lies.
    pub fn word_of(&self, i: usize) -> usize
        requires { i < positions self.now }
        ensures word { result ≡ word_of self.now i }
        ensures in_range { result < length self.now }
    {
        self.places[i].word
    }

    /// The word that a position is the first of, where it is the first of one.
    pub fn word_begun_at(&self, i: usize) -> Option<usize>
        requires { i < positions self.now }
        ensures word { MatchOption result (i ≢ first self.now (word_of self.now i))
            (λ w. (w ≡ word_of self.now i) × (i ≡ first self.now w)) }
        ensures in_range { IfSome result (λ w. w < length self.now) }
    {
        let word = self.word_of(i);
        if i == self.first_of(word) {
            Some(word)
        } else {
            None
        }
    }

    /// The weight of a word.
    pub fn weight(&self, w: usize) -> u32
        requires { w < length self.now }
        ensures { result ≡ weight self.now w }
    {
        self.words[w].0
    }

    /// The words in their order, each behind its weight.
    pub fn entries(&self) -> &[(u32, Word)]
        ensures { result.now ≡ self.now }
    {
        self.words.as_slice()
    }

    /// The total of a generator: the sum over the words of weight times the word's letters of the generator, its
    /// inverse counted as -1.
    pub fn total(&self, generator: u8) -> i64
        ensures { result ≡ chain_total generator self.now }
    {
        total_in_words(self.words.as_slice(), generator)
    }

    /// The first generator whose total isn't 0, with its total.
    pub fn first_unbalanced(&self) -> Option<(u8, i64)>
        ensures balanced { IsNone result ↔ IsBalanced self.now }
        ensures first { IfSome result (λ found. IsFirstUnbalanced self.now found.0 found.1) }
    {
        for generator in 0..GENERATORS {
            let total = total_in_words(self.words.as_slice(), generator);
            if total != 0 {
                return Some((generator, total));
            }
        }
        None
    }

    /// The same chain once more.
    pub fn copy(&self, alloc: Global) -> Result<Chain, AllocError>
        ensures { IfOk result (λ c. c ≡ self.now) }
    {
        Chain::of_accepted(alloc, copy_words(alloc, self.words.as_slice())?)
    }
}
