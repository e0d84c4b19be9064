//! The polygons that are advised for small chains, and the estimates of their greatest sums.

ghost use Rattle.std.specs.Prelude.{◌<◌, ◌≤◌, ◌^◌, length, IfOk};
ghost use Rattle.std.specs.List.{All};
ghost use Rattle.sc_theory.specs.Chains.{positions};
ghost use Rattle.sc_chain.specs.Faults.{AreGenerators};
ghost use Rattle.sc_words.specs.declared.limits.TheConstants.{GENERATORS};

use sc_advice::{Mode, advise};
use sc_chain::{Chain, Polygon, Word, letters_of};
use std::alloc::{AllocError, Global};
use std::test::Fail;

// A word of at most 100 letters.
fn short_word(alloc: Global, text: &[u8]) -> Result<Word, AllocError>
    ensures generators { IfOk result (λ w. All (λ x. x.number < GENERATORS) w) }
    ensures short { IfOk result (λ w. length w ≤ 100) }
{
    let letters = letters_of(alloc, text)?;
    if letters.len() > 100 {
        return Ok(Word::new(alloc));
    }
    Ok(Word::from_letters(letters))
}

// The words that spaces cut, each with the same weight.
fn words_of(alloc: Global, text: &[u8], weight: u32) -> Result<Vec<(u32, Word)>, AllocError>
    ensures generators { IfOk result (λ words. AreGenerators words.items) }
    ensures few { IfOk result (λ words. positions words.items < 2 ^ 32) }
{
    let mut words = Vec::new(alloc);
    for part in text.split(|byte| *byte == b' ') {
        if words.len() < 100 {
            words.push((weight, short_word(alloc, part)?))?;
        }
    }
    Ok(words)
}

fn chain_of(alloc: Global, text: &[u8], weight: u32) -> Result<Chain, Fail> {
    match Chain::of_reduced(alloc, words_of(alloc, text, weight)?) {
        Ok(chain) => Ok(chain),
        Err(_) => Err(Fail::from("no chain")),
    }
}

// Whether the walks of these are written as polygons of the chain.
fn are_polygons(alloc: Global, chain: &Chain, polygons: &[Polygon]) -> Result<bool, AllocError> {
    for polygon in polygons {
        if Polygon::of(chain, Vec::from_slice(alloc, polygon.walk())?).is_none() {
            return Ok(false);
        }
    }
    Ok(true)
}

// How many polygons each list has, and 0 for one that has another polygon.
fn counts(alloc: Global, text: &[u8], weight: u32, mode: Mode) -> Result<[usize; 4], Fail> {
    let chain = chain_of(alloc, text, weight)?;
    let advice = advise(alloc, &chain, mode)?;
    let mut counts = [0; 4];
    for (count, list) in counts.iter_mut().zip([
        &advice.surface,
        &advice.basis,
        &advice.tight,
        &advice.pool,
    ]) {
        if are_polygons(alloc, &chain, list.as_slice())? {
            *count = list.len();
        }
    }
    Ok(counts)
}

const SIXTY_FOUR: &[u8; 64] = b"BAbbaBBaabbbaBAbaBAAAbAAABaBAAbaBBaaBAbAbaBaabAbABBAbAAABabaaaaa";

// Each list of advice holds polygons of the chain alone, and where the chain is balanced there are some, unless a step
// takes off more than all that a polygon is worth.
#[test]
fn polygons_of_chains(rt: HostRuntime) -> Result<(), Fail> {
    let alloc = rt.alloc();
    let cases: [(&[u8], u32, Mode, bool); 12] = [
        (b"a", 1, Mode::Plain, false),
        (b"a", 1000, Mode::Surface, false),
        (b"ab", 1, Mode::Near { thousandths: 1 }, false),
        (b"a A", 1, Mode::Plain, true),
        (b"a A", 1000, Mode::Near { thousandths: 3 }, true),
        (b"aa A A", 1, Mode::Plain, true),
        (b"abAB", 1, Mode::Plain, true),
        (b"abAB", 1000, Mode::Plain, true),
        (b"abABabAB", 1, Mode::Near { thousandths: 10 }, true),
        (
            b"AbbAAbaaBBaB abAB",
            1,
            Mode::Near {
                thousandths: u32::MAX,
            },
            false,
        ),
        (b"AbbAAbaaBBaB", 1000, Mode::Near { thousandths: 1 }, true),
        (SIXTY_FOUR, 1000, Mode::Plain, true),
    ];
    for (text, weight, mode, is_balanced) in cases {
        let [_, basis, tight, pool] = counts(alloc, text, weight, mode)?;
        assert_eq!(rt;
            basis > 0 && tight >= basis && pool >= tight,
            is_balanced,
            "{text:?} {mode:?}"
        );
    }
    Ok(())
}

// The number 1 with the 32 bits behind the point that an estimate has.
const ONE: i64 = 1 << 32;

// Whether the estimate for a chain is within a ten thousandth of a fraction.
fn is_near(alloc: Global, text: &[u8], numerator: i64, denominator: i64) -> Result<bool, Fail> {
    let chain = chain_of(alloc, text, 1)?;
    let estimate = advise(alloc, &chain, Mode::Plain)?.estimate;
    let known = ONE.saturating_mul(numerator);
    let error = estimate.saturating_mul(denominator).saturating_sub(known);
    Ok(error.unsigned_abs() <= known.unsigned_abs() / 10_000)
}

// The search comes to the greatest sum of values, which is half the length less twice the stable commutator length.
#[test]
fn greatest_sums(rt: HostRuntime) -> Result<(), Fail> {
    let alloc = rt.alloc();
    // scl is 0, 1/2, 1, 1/2, 7/8, 13/12, 81/59.
    let cases: [(&[u8], i64, i64); 7] = [
        (b"a A", 1, 1),
        (b"abAB", 1, 1),
        (b"abABabAB", 2, 1),
        (b"AbbAAbaaBBaB", 5, 1),
        (b"AAABBaBabbabaBAb", 25, 4),
        (b"BABAbAbbaaBaBBabAbABaabA", 59, 6),
        (b"AbabAbbaBAbAbaaabAbbABABaBBBaBBB", 782, 59),
    ];
    for (text, numerator, denominator) in cases {
        assert!(rt; is_near(alloc, text, numerator, denominator)?, "{text:?}");
    }
    Ok(())
}
