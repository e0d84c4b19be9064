//! Prices that are lifted, and what the oracle answers at prices.

ghost use Rattle.std.specs.Prelude.{◌≡◌, pos, ◌<◌, ◌≤◌, ◌^◌, length, IfOk};
ghost use Rattle.std.specs.List.{All};
ghost use Rattle.sc_theory.specs.Chains.{positions};
ghost use Rattle.sc_theory.specs.Prices.{pairs as pairs_of};
ghost use Rattle.sc_theory.specs.Columns.{rows};
ghost use Rattle.sc_chain.specs.Faults.{AreGenerators};
ghost use Rattle.sc_words.specs.declared.limits.TheConstants.{GENERATORS};
ghost use Rattle.sc_rows.specs.Standing.{ArePrices};

use sc_candidates::Candidates;
use sc_certificate::PriceList;
use sc_chain::{Chain, Pairs, Word, letters_of};
use sc_rows::{Place, PriceRow, PriceRows};
use sc_simplex::{Answer, Oracle};
use sc_solve::{LiftFault, PolygonOracle, lift};
use sc_whole::{Op, Wide};
use std::alloc::{AllocError, Global};
use std::test::Fail;

// A word of at most 100 letters.
fn short_word(alloc: Global, text: &[u8]) -> Result<Word, AllocError>
    ensures generators { IfOk result (λ w. All (λ x. x.number < GENERATORS) w) }
    ensures short { IfOk result (λ w. length w ≤ 100) }
{
    let letters = letters_of(alloc, text)?;
    if letters.len() > 100 {
        return Ok(Word::new(alloc));
    }
    Ok(Word::from_letters(letters))
}

// The words that spaces cut, each with the weight 1.
fn words_of(alloc: Global, text: &[u8]) -> Result<Vec<(u32, Word)>, AllocError>
    ensures generators { IfOk result (λ words. AreGenerators words.items) }
    ensures few { IfOk result (λ words. positions words.items < 2 ^ 32) }
{
    let mut words = Vec::new(alloc);
    for part in text.split(|byte| *byte == b' ') {
        if words.len() < 100 {
            words.push((1, short_word(alloc, part)?))?;
        }
    }
    Ok(words)
}

fn chain_of(alloc: Global, text: &[u8]) -> Result<Chain, Fail> {
    match Chain::of_reduced(alloc, words_of(alloc, text)?) {
        Ok(chain) => Ok(chain),
        Err(_) => Err(Fail::from("no chain")),
    }
}

// Prices over the scale 1.
fn row_of(alloc: Global, prices: &[i128]) -> Result<PriceRow, AllocError>
    ensures size { IfOk result (λ row. length row.entries.items ≡ length prices.now) }
    ensures scale { IfOk result (λ row. row.scale ≡ pos 1) }
{
    Ok(PriceRow {
        entries: Vec::from_slice(alloc, prices)?,
        scale: 1,
    })
}

// Prices of a chain over the scale 1, as many as it has rows.
fn prices_of(
    alloc: Global,
    chain: &Chain,
    pairs: &Pairs,
    bulk: &[i128],
    fine: &[i128],
) -> Result<PriceRows, Fail>
    requires { pairs.now ≡ pairs_of chain.now }
    ensures { IfOk result (ArePrices (rows chain.now)) }
{
    let size = pairs.count() + chain.words();
    if bulk.len() != size || fine.len() != size {
        return Err(Fail::from("another number of rows"));
    }
    let bulk = row_of(alloc, bulk)?;
    let fine = row_of(alloc, fine)?;
    Ok(PriceRows { bulk, fine })
}

fn lifted(
    alloc: Global,
    text: &[u8],
    bulk: &[i128],
    fine: &[i128],
) -> Result<Result<PriceList, LiftFault>, Fail> {
    let chain = chain_of(alloc, text)?;
    let pairs = Pairs::of(alloc, &chain)?;
    let prices = prices_of(alloc, &chain, &pairs, bulk, fine)?;
    Ok(lift(alloc, &chain, &pairs, &prices))
}

#[test]
fn prices_are_lifted(rt: HostRuntime) -> Result<(), Fail> {
    let alloc = rt.alloc();
    let cases: [(&[u8], &[i128], &[i128], &[i128], &[i128]); 4] = [
        (b"abAB", &[-1, -1, 0], &[0, 0, 1], &[1], &[-5, -5]),
        (b"a A", &[-1, -1, 1], &[0, 0, 1], &[-3, 4], &[-3]),
        (
            b"abAB cdCD",
            &[-1, -1, -1, -1, 0, 0],
            &[0, 0, 0, 0, 1, 1],
            &[1, 1],
            &[-9, -9, -9, -9],
        ),
        (b"abAB", &[0, 0, 0], &[-7, 8, 9], &[9], &[-7, 8]),
    ];
    for (text, bulk, fine, base, pair) in cases {
        let Ok(list) = lifted(alloc, text, bulk, fine)? else {
            return Err(Fail::from("refused"));
        };
        assert_eq!(rt; list.scale(), 1);
        assert_eq!(rt; list.base(), base);
        assert_eq!(rt; list.pair(), pair);
    }
    Ok(())
}

#[test]
fn wide_numbers_are_told(rt: HostRuntime) -> Result<(), Fail> {
    let alloc = rt.alloc();
    let (half, limit) = (1 << 126, 1 << 90);
    let cases: [(i128, i128, Place, u32, u32, Op, i128, i128); 5] = [
        (-1, i128::MIN, Place::LiftTurn, 1, 0, Op::Sub, 0, i128::MIN),
        (-1, half, Place::LiftMul, 0, 0, Op::Mul, 4, half),
        (
            0,
            i128::MAX / 4,
            Place::LiftBulk,
            2,
            0,
            Op::Mul,
            i128::MAX - 2,
            -2,
        ),
        (0, limit, Place::LiftSize, 2, 0, Op::Size, limit, limit),
        (0, -limit, Place::LiftSize, 2, 0, Op::Size, -limit, limit),
    ];
    for (bulk, fine, place, first, second, op, x, y) in cases {
        let own = if place == Place::LiftBulk { -2 } else { bulk };
        let Err(LiftFault::Wide(at)) = lifted(alloc, b"abAB", &[bulk, bulk, own], &[0, 0, fine])?
        else {
            return Err(Fail::from("no refusal"));
        };
        assert_eq!(rt; (at.place, at.first, at.second), (place, first, second));
        assert_eq!(rt; at.wide, Wide { op, x, y });
    }
    Ok(())
}

// What the oracle answers at prices of `abAB`: the key of the column, with an empty one where none improves.
fn asked(alloc: Global, bulk: &[i128], fine: &[i128]) -> Result<Vec<u32>, Fail> {
    let chain = chain_of(alloc, b"abAB")?;
    let pairs = Pairs::of(alloc, &chain)?;
    let prices = prices_of(alloc, &chain, &pairs, bulk, fine)?;
    let mut oracle = PolygonOracle::new(chain, pairs, Candidates::none(alloc));
    match oracle.improving(alloc, &prices) {
        Ok(Answer::Improving(column)) => Ok(column.key),
        Ok(Answer::Optimal) => Ok(Vec::new(alloc)),
        Err(_) => Err(Fail::from("refused")),
    }
}

#[test]
fn the_oracle_finds_the_polygon_of_a_commutator(rt: HostRuntime) -> Result<(), Fail> {
    let alloc = rt.alloc();
    let cases: [(&[i128], &[i128], &[u32]); 4] = [
        (&[-1, -1, -1], &[0, 0, 0], &[0, 3, 2, 1]),
        (&[-1, -1, 0], &[0, 0, 1], &[]),
        (&[0, 0, 0], &[0, 0, 0], &[0, 3, 2, 1]),
        (&[0, 0, 1], &[0, 0, 0], &[]),
    ];
    for (bulk, fine, wanted) in cases {
        let key = asked(alloc, bulk, fine)?;
        assert_eq!(rt; key.as_slice(), wanted);
    }
    Ok(())
}
