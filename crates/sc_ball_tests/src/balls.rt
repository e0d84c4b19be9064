//! The balls of small chains.

ghost use Rattle.std.specs.Prelude.{◌<◌, ◌≤◌, ◌^◌, length, IfOk};
ghost use Rattle.std.specs.List.{All};
ghost use Rattle.sc_theory.specs.Chains.{positions};
ghost use Rattle.sc_chain.specs.Faults.{AreGenerators};
ghost use Rattle.sc_words.specs.declared.limits.TheConstants.{GENERATORS};

use sc_ball::{BallFault, ball};
use sc_chain::limits::{MAX_POSITIONS, MAX_WORDS};
use sc_chain::{Chain, Word, letters_of};
use sc_fan::Fan;
use sc_solve::SolveFault;
use std::alloc::{AllocError, Global};
use std::test::Fail;

// A word of at most 100 letters.
fn short_word(alloc: Global, text: &[u8]) -> Result<Word, AllocError>
    ensures generators { IfOk result (λ w. All (λ x. x.number < GENERATORS) w) }
    ensures short { IfOk result (λ w. length w ≤ 100) }
{
    let letters = letters_of(alloc, text)?;
    if letters.len() > 100 {
        return Ok(Word::new(alloc));
    }
    Ok(Word::from_letters(letters))
}

// The words that spaces cut, each with the weight 1.
fn words_of(alloc: Global, text: &[u8]) -> Result<Vec<(u32, Word)>, AllocError>
    ensures generators { IfOk result (λ words. AreGenerators words.items) }
    ensures few { IfOk result (λ words. positions words.items < 2 ^ 32) }
{
    let mut words = Vec::new(alloc);
    for part in text.split(|byte| *byte == b' ') {
        if words.len() < 100 && !part.is_empty() {
            words.push((1, short_word(alloc, part)?))?;
        }
    }
    Ok(words)
}

fn chain_of(alloc: Global, text: &[u8]) -> Result<Chain, Fail> {
    match Chain::of_reduced(alloc, words_of(alloc, text)?) {
        Ok(chain) => Ok(chain),
        Err(_) => Err(Fail::from("no chain")),
    }
}

// What the ball of two chains is answered.
fn answer(
    alloc: Global,
    first: &Chain,
    second: &Chain,
    budget: u32,
) -> Result<Result<Fan, BallFault>, Fail> {
    if first.words() + second.words() > MAX_WORDS
        || first.positions() + second.positions() > MAX_POSITIONS
        || budget == 0
    {
        return Err(Fail::from("large"));
    }
    if first.first_unbalanced().is_some() || second.first_unbalanced().is_some() {
        return Err(Fail::from("unbalanced"));
    }
    Ok(ball(alloc, first, second, budget))
}

// The fan of the chains of two texts.
fn fan_of(alloc: Global, first: &[u8], second: &[u8]) -> Result<Fan, Fail> {
    let (first, second) = (chain_of(alloc, first)?, chain_of(alloc, second)?);
    match answer(alloc, &first, &second, 10_000)? {
        Ok(fan) => Ok(fan),
        Err(_) => Err(Fail::from("no fan")),
    }
}

// Whether the corners are these: the two numbers of the direction, and those of the value.
fn has_corners(fan: &Fan, wanted: &[(i64, i64, i128, i128)]) -> bool {
    fan.corners.len() == wanted.len()
        && fan.corners.iter().zip(wanted).all(|(corner, place)| {
            (corner.direction.s, corner.direction.t) == (place.0, place.1)
                && (corner.value.num(), corner.value.den()) == (place.2, place.3)
        })
}

#[test]
fn corners_of_small_chains(rt: HostRuntime) -> Result<(), Fail> {
    let alloc = rt.alloc();
    let cases: [(&[u8], &[u8], &[(i64, i64, i128, i128)]); 4] = [
        (
            b"abAB",
            b"cdCD",
            &[(0, -1, 1, 2), (1, 0, 1, 2), (0, 1, 1, 2)],
        ),
        (
            b"abAB",
            b"abAB",
            &[(0, -1, 1, 2), (1, -1, 0, 1), (1, 0, 1, 2), (0, 1, 1, 2)],
        ),
        (
            b"abAB",
            b"ab A B",
            &[
                (0, -1, 1, 2),
                (1, -2, 1, 1),
                (2, -1, 1, 1),
                (1, 0, 1, 2),
                (2, 1, 1, 1),
                (1, 2, 1, 1),
                (0, 1, 1, 2),
            ],
        ),
        (b"", b"", &[(0, -1, 0, 1), (1, 0, 0, 1), (0, 1, 0, 1)]),
    ];
    for (first, second, corners) in cases {
        let fan = fan_of(alloc, first, second)?;
        assert!(rt; has_corners(&fan, corners));
    }
    Ok(())
}

// The fault of the chains of two texts.
fn fault_of(alloc: Global, first: &[u8], second: &[u8], budget: u32) -> Result<BallFault, Fail> {
    let (first, second) = (chain_of(alloc, first)?, chain_of(alloc, second)?);
    match answer(alloc, &first, &second, budget)? {
        Ok(_) => Err(Fail::from("no fault")),
        Err(fault) => Ok(fault),
    }
}

#[test]
fn faults_show_their_search(rt: HostRuntime) -> Result<(), Fail> {
    let alloc = rt.alloc();
    let BallFault::Solve {
        search,
        lower,
        direction,
        fault,
    } = fault_of(alloc, b"abAB", b"abAB", 1)?
    else {
        return Err(Fail::from("another fault"));
    };
    assert!(rt; search.is_empty());
    assert!(rt; lower);
    assert_eq!(rt; (direction.s, direction.t), (0, -1));
    assert!(rt; matches!(fault, SolveFault::Budget { .. }));
    Ok(())
}
