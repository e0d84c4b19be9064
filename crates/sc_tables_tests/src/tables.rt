//! Tables and cheap polygons of small chains, and walks that are split.

ghost use Rattle.std.specs.Prelude.{◌<◌, ◌≤◌, ◌^◌, length, IfOk};
ghost use Rattle.std.specs.List.{All};
ghost use Rattle.sc_theory.specs.Chains.{positions};
ghost use Rattle.sc_theory.specs.Walks.{IsClosedWalk, IsPolygon};
ghost use Rattle.sc_weight.specs.Levels.{zero_levels};
ghost use Rattle.sc_chain.specs.Faults.{AreGenerators};
ghost use Rattle.sc_words.specs.declared.limits.TheConstants.{GENERATORS};
ghost use Rattle.sc_tables.specs.StepPrices.{AreForChain};
ghost use Rattle.sc_tables.specs.Totals.{IsBelow};

use sc_chain::{Chain, Pairs, Polygon, Word, letters_of};
use sc_tables::{Distances, Found, StepFault, StepPrices, TableFault, cheap_polygon, split};
use sc_weight::{Pair, Plain, Weight};
use std::alloc::{AllocError, Global};
use std::fmt::{Debug, Write};
use std::test::Fail;

// A word of at most 100 letters.
fn short_word(alloc: Global, text: &[u8]) -> Result<Word, AllocError>
    ensures generators { IfOk result (λ w. All (λ x. x.number < GENERATORS) w) }
    ensures short { IfOk result (λ w. length w ≤ 100) }
{
    let letters = letters_of(alloc, text)?;
    if letters.len() > 100 {
        return Ok(Word::new(alloc));
    }
    Ok(Word::from_letters(letters))
}

// The words that spaces cut, each with the weight 1.
fn words_of(alloc: Global, text: &[u8]) -> Result<Vec<(u32, Word)>, AllocError>
    ensures generators { IfOk result (λ words. AreGenerators words.items) }
    ensures few { IfOk result (λ words. positions words.items < 2 ^ 32) }
{
    let mut words = Vec::new(alloc);
    for part in text.split(|byte| *byte == b' ') {
        if words.len() < 100 {
            words.push((1, short_word(alloc, part)?))?;
        }
    }
    Ok(words)
}

fn chain_of(alloc: Global, text: &[u8]) -> Result<Chain, Fail> {
    match Chain::of_reduced(alloc, words_of(alloc, text)?) {
        Ok(chain) => Ok(chain),
        Err(_) => Err(Fail::from("no chain")),
    }
}

// The prices of a chain's steps where each pair has one price and each word another, or the fault.
fn even_prices<W: Weight>(
    alloc: Global,
    chain: &Chain,
    pair: &W,
    base: &W,
) -> Result<StepPrices<W>, StepFault>
    ensures { IfOk result (AreForChain chain.now) }
{
    let pairs = Pairs::of(alloc, chain)?;
    let pair = vec![in alloc; *pair; pairs.count()]?;
    let base = vec![in alloc; *base; chain.words()]?;
    StepPrices::build(alloc, chain, &pairs, &pair, &base)
}

// The table of a start, each entry behind a blank.
fn show_table<W: Weight + Debug>(
    tables: &Distances<W>,
    start: u32,
    positions: u32,
    shown: &mut String,
) -> Result<(), AllocError>
    requires start { start < tables.now.side }
    requires positions { positions ≤ tables.now.side }
{
    for place in 0..positions {
        match tables.at(start, place) {
            Some(total) => write!(shown, " {total:?}")?,
            None => write!(shown, " none")?,
        }
    }
    Ok(())
}

// The tables of all starts, one after another.
fn show_tables<W: Weight + Debug>(
    tables: &Distances<W>,
    positions: u32,
    shown: &mut String,
) -> Result<(), AllocError>
    requires { positions ≤ tables.now.side }
{
    for start in 0..positions {
        write!(shown, ";")?;
        show_table(tables, start, positions, shown)?;
    }
    Ok(())
}

// What is answered for a chain and a threshold.
fn shown_answer<W: Weight + Debug>(
    alloc: Global,
    chain: &Chain,
    prices: &StepPrices<W>,
    threshold: &W,
) -> Result<String, AllocError>
    requires prices { AreForChain chain.now prices.now }
    requires threshold { IsBelow zero_levels (W.levels threshold.now) }
{
    let mut shown = String::new(alloc);
    match cheap_polygon(alloc, chain, prices, threshold) {
        Ok(Found::Polygon(polygon)) => write!(shown, "polygon {:?}", polygon.walk())?,
        Ok(Found::Tables(tables)) => show_tables(&tables, chain.positions() as u32, &mut shown)?,
        Err(TableFault::Wide { walk, level, wide }) => {
            write!(shown, "wide {walk:?} {level:?} {wide:?}")?;
        }
        Err(TableFault::Memory) => write!(shown, "memory")?,
    }
    Ok(shown)
}

// The answer for a text of words, where each pair has one price and each word another.
fn answer_of<W: Weight + Debug>(
    alloc: Global,
    text: &[u8],
    pair: &W,
    base: &W,
    threshold: &W,
) -> Result<String, Fail>
    requires { IsBelow zero_levels (W.levels threshold.now) }
{
    let chain = chain_of(alloc, text)?;
    match even_prices(alloc, &chain, pair, base) {
        Ok(prices) => Ok(shown_answer(alloc, &chain, &prices, threshold)?),
        Err(fault) => Ok(format!(in alloc; "{fault:?}")?),
    }
}

// The walk of a polygon, twice.
fn twice(alloc: Global, chain: &Chain, polygon: &Polygon) -> Result<Vec<u32>, AllocError>
    requires { IsPolygon chain.now polygon.now }
    ensures { IfOk result (λ walk. IsClosedWalk chain.now walk.items) }
{
    let mut walk = Vec::from_slice(alloc, polygon.walk())?;
    walk.extend_from_slice(polygon.walk())?;
    Ok(walk)
}

// The polygons of a polygon's walk that is gone along twice.
fn shown_parts(alloc: Global, chain: &Chain, walk: &[u32]) -> Result<String, AllocError> {
    let mut shown = String::new(alloc);
    let Some(polygon) = Polygon::of(chain, Vec::from_slice(alloc, walk)?) else {
        return Ok(shown);
    };
    for part in &split(alloc, chain, &twice(alloc, chain, &polygon)?)? {
        write!(shown, "{:?}", part.walk())?;
    }
    Ok(shown)
}

#[test]
fn polygons_and_tables(rt: HostRuntime) -> Result<(), Fail> {
    let great = 1 << 126;
    let sixteen = b"a a a a a a a a a a a a a a a a A A A A A A A A A A A A A A A A";
    let cases: [(&[u8], i128, i128, u8, &str); 8] = [
        (b"abAB", -5, 1, 2, "polygon [0, 3, 2, 1]"),
        (
            b"abAB",
            -5,
            1,
            1,
            "; Plain(0) Plain(-5) Plain(-10) Plain(-5); Plain(6) Plain(0) Plain(-4) Plain(1); Plain(11) Plain(5) Plain(0) Plain(6); Plain(6) Plain(0) Plain(-5) Plain(0)",
        ),
        (
            b"abAB",
            great,
            1,
            1,
            "wide [0, 3, 2] Fine Wide { op: Add, x: 85070591730234615865843651857942052864, y: 85070591730234615865843651857942052864 }",
        ),
        (b"a", 0, 1, 1, "; Plain(0)"),
        (
            b"a A b",
            0,
            1,
            2,
            "; Plain(0) Plain(1) none; Plain(1) Plain(0) none; none none Plain(0)",
        ),
        (
            b"a A",
            i128::MIN,
            1,
            1,
            "Turn { row: 0, level: Fine, wide: Wide { op: Sub, x: 0, y: -170141183460469231731687303715884105728 } }",
        ),
        (
            b"a A",
            i128::MAX,
            1,
            1,
            "Step { from: 0, to: 1, level: Fine, wide: Wide { op: Add, x: 170141183460469231731687303715884105727, y: 1 } }",
        ),
        (sixteen, 0, 1, 3, "polygon [0, 16]"),
    ];
    for (text, pair, base, threshold, expected) in cases {
        assert!(rt; 0 < threshold);
        assert_eq!(rt;
            answer_of(
                rt.alloc(),
                text,
                &Plain(pair),
                &Plain(base),
                &Plain(i128::from(threshold))
            )?
            .as_str(),
            expected,
            "at {text:?} {pair} {base} {threshold}"
        );
    }
    Ok(())
}

fn fine(fine: i128) -> Pair {
    Pair { bulk: 0, fine }
}

#[test]
fn tables_of_two_levels(rt: HostRuntime) -> Result<(), Fail> {
    let mut expected = String::new(rt.alloc());
    for table in [
        [0, -5, -10, -5],
        [6, 0, -4, 1],
        [11, 5, 0, 6],
        [6, 0, -5, 0],
    ] {
        write!(expected, ";")?;
        for total in table {
            write!(expected, " {:?}", fine(total))?;
        }
    }
    assert_eq!(rt;
        answer_of(
            rt.alloc(),
            b"abAB",
            &fine(-5),
            &fine(1),
            &Pair { bulk: 0, fine: 1 }
        )?,
        expected
    );
    assert_eq!(rt;
        answer_of(
            rt.alloc(),
            b"abAB",
            &fine(-5),
            &fine(1),
            &Pair { bulk: 0, fine: 2 }
        )?
        .as_str(),
        "polygon [0, 3, 2, 1]"
    );
    let bulk = Pair { bulk: 1, fine: -9 };
    assert_eq!(rt;
        answer_of(
            rt.alloc(),
            b"abAB",
            &fine(0),
            &bulk,
            &Pair { bulk: 1, fine: -8 }
        )?
        .as_str(),
        "polygon [0, 3, 2, 1]"
    );
    Ok(())
}

#[test]
fn walks_are_split(rt: HostRuntime) -> Result<(), Fail> {
    let chain = chain_of(rt.alloc(), b"abAB")?;
    assert_eq!(rt;
        shown_parts(rt.alloc(), &chain, &[0, 3, 2, 1])?.as_str(),
        "[0, 3, 2, 1][0, 3, 2, 1]"
    );
    Ok(())
}
