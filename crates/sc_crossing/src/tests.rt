//! Chains of directions, forms and tightness, worked out by hand.

ghost use Rattle.std.specs.Prelude.{◌<◌, ◌≤◌, ◌^◌, length, IfOk};
ghost use Rattle.std.specs.List.{All};
ghost use Rattle.sc_theory.specs.Chains.{positions, weighted_length};
ghost use Rattle.sc_chain.specs.Faults.{AreGenerators};
ghost use Rattle.sc_words.specs.declared.limits.TheConstants.{GENERATORS};

use super::*;
use sc_certificate::PriceList;
use sc_chain::{Chain, Word, letters_of};
use sc_cone::{Direction, Quadrant};
use sc_fraction::Frac;
use std::alloc::{AllocError, Global};
use std::test::Fail;

// A word of at most 100 letters.
fn short_word(alloc: Global, text: &[u8]) -> Result<Word, AllocError>
    ensures generators { IfOk result (λ w. All (λ x. x.number < GENERATORS) w) }
    ensures short { IfOk result (λ w. length w ≤ 100) }
{
    let letters = letters_of(alloc, text)?;
    if letters.len() > 100 {
        return Ok(Word::new(alloc));
    }
    Ok(Word::from_letters(letters))
}

// The words that spaces cut, each with the weight 1.
fn words_of(alloc: Global, text: &[u8]) -> Result<Vec<(u32, Word)>, AllocError>
    ensures generators { IfOk result (λ words. AreGenerators words.items) }
    ensures few { IfOk result (λ words. positions words.items < 2 ^ 32) }
{
    let mut words = Vec::new(alloc);
    for part in text.split(|byte| *byte == b' ') {
        if words.len() < 100 {
            words.push((1, short_word(alloc, part)?))?;
        }
    }
    Ok(words)
}

// A chain of at most 10 words and positions.
fn chain_of(alloc: Global, text: &[u8]) -> Result<Chain, Fail>
    ensures words { IfOk result (λ c. length c ≤ 10) }
    ensures positions { IfOk result (λ c. positions c ≤ 10) }
    ensures light { IfOk result (λ c. weighted_length c ≤ 10) }
{
    let Ok(chain) = Chain::of_reduced(alloc, words_of(alloc, text)?) else {
        return Err(Fail::from("no chain"));
    };
    if chain.words() <= 10 && chain.positions() <= 10 && chain.length() <= 10 {
        Ok(chain)
    } else {
        Err(Fail::from("no small chain"))
    }
}

// Whether the words of a chain are these, with their weights.
fn has_words(alloc: Global, chain: &Chain, wanted: &[(u32, &[u8])]) -> Result<bool, AllocError> {
    for (entry, (weight, text)) in chain.entries().iter().zip(wanted) {
        let letters = letters_of(alloc, text)?;
        if entry.0 != *weight || entry.1.as_slice() != letters.as_slice() {
            return Ok(false);
        }
    }
    Ok(chain.entries().len() == wanted.len())
}

#[test]
fn chains_of_two_directions(rt: HostRuntime) -> Result<(), Fail> {
    let alloc = rt.alloc();
    let (first, second) = (chain_of(alloc, b"a A")?, chain_of(alloc, b"aabAB")?);
    let above = Direction { s: 3, t: 2 };
    let upper = chain_at(alloc, Quadrant::Upper, &first, &second, above)?;
    assert!(rt; has_words(alloc, &upper, &[(3, b"a"), (3, b"A"), (2, b"aabAB")])?);
    let below = Direction { s: 0, t: -5 };
    let lower = chain_at(alloc, Quadrant::Lower, &first, &second, below)?;
    assert!(rt; has_words(alloc, &lower, &[(0, b"a"), (0, b"A"), (5, b"baBAA")])?);
    Ok(())
}

#[test]
fn a_list_of_two_commutators(rt: HostRuntime) -> Result<(), Fail> {
    let alloc = rt.alloc();
    let (first, second) = (chain_of(alloc, b"abAB")?, chain_of(alloc, b"cdCD cd DC")?);
    let base = Vec::from_slice(alloc, &[1, -2, 3, 4])?;
    let Some(list) = PriceList::new(6, base, Vec::new(alloc)) else {
        return Err(Fail::from("no list"));
    };
    let form = form_of(&first, &second, &list);
    assert_eq!(rt; (form.first.num(), form.first.den()), (11, 3));
    assert_eq!(rt; (form.second.num(), form.second.den()), (19, 3));
    let direction = Direction { s: 2, t: -3 };
    for (num, den, wanted) in [(79, 12, true), (20, 3, false)] {
        let value = Frac::new(num, den)?;
        assert_eq!(rt;
            is_tight_at(&first, &second, &list, direction, &value),
            wanted,
            "{num}"
        );
    }
    Ok(())
}
