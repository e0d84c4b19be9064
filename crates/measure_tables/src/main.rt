//! Asks for the tables of a chain of 64 positions on two generators fifty times, so that the time of a call can be
//! taken from outside. The prices are the length row, by which each closed walk costs its number of steps.
#![tactic(auto)]

ghost use Rattle.std.specs.Prelude.{◌<◌, ◌≤◌, ◌^◌, length, IfOk, IfSome};
ghost use Rattle.std.specs.List.{All};
ghost use Rattle.sc_theory.specs.Chains.{positions};
ghost use Rattle.sc_chain.specs.Faults.{AreGenerators};
ghost use Rattle.sc_words.specs.declared.limits.TheConstants.{GENERATORS};
ghost use Rattle.sc_tables.specs.StepPrices.{AreForChain};

use sc_chain::{Chain, Pairs, Word, letters_of};
use sc_tables::{Found, StepPrices, cheap_polygon};
use sc_weight::Pair;
use std::alloc::{AllocError, Global};
use std::io;

const CALLS: u32 = 50;

const WORD: &[u8; 64] = b"babbaaBabbaBAAABBababAAABaBBBaBBAAAABabbaabAAbbbabaBaBaBAbbABBAA";

/// The word, unless it is too long.
fn word(alloc: Global) -> Result<Word, AllocError>
    ensures generators { IfOk result (λ w. All (λ x. x.number < GENERATORS) w) }
    ensures short { IfOk result (λ w. length w ≤ 100) }
{
    let letters = letters_of(alloc, WORD)?;
    if letters.len() > 100 {
        return Ok(Word::new(alloc));
    }
    Ok(Word::from_letters(letters))
}

fn words(alloc: Global) -> Result<Vec<(u32, Word)>, AllocError>
    ensures generators { IfOk result (λ words. AreGenerators words.items) }
    ensures few { IfOk result (λ words. positions words.items < 2 ^ 32) }
{
    let mut words = Vec::new(alloc);
    words.push((1, word(alloc)?))?;
    Ok(words)
}

fn weight(fine: i128) -> Pair {
    Pair { bulk: 0, fine }
}

/// The place of a position in the word, with the word's length in place of 0.
fn height(position: usize) -> i128 {
    if position == 0 { 64 } else { position as i128 }
}

fn prices(alloc: Global, chain: &Chain) -> Option<StepPrices<Pair>>
    ensures { IfSome result (AreForChain chain.now) }
{
    let pairs = Pairs::of(alloc, chain).ok()?;
    let mut pair = vec![in alloc; weight(0); pairs.count()].ok()?;
    for (row, price) in pair.iter_mut().enumerate() {
        let (p, q) = pairs.pair_at(row);
        *price = weight(height(p).wrapping_sub(height(q)));
    }
    let base = vec![in alloc; weight(64); chain.words()].ok()?;
    StepPrices::build(alloc, chain, &pairs, &pair, &base).ok()
}

/// How many of the calls answer tables.
fn count_tables(alloc: Global, chain: &Chain, prices: &StepPrices<Pair>) -> u32
    requires { AreForChain chain.now prices.now }
{
    let mut count = 0_u32;
    for _call in 0..CALLS {
        if let Ok(Found::Tables(_)) = cheap_polygon(
            alloc,
            chain,
            prices,
            &Pair { bulk: 0, fine: 1 },
        ) {
            count = count.wrapping_add(1);
        }
    }
    count
}

fn main(rt: HostRuntime) -> io::Result<()> {
    let alloc = rt.alloc();
    let Ok(chain) = Chain::of_reduced(alloc, words(alloc)?) else {
        return Ok(());
    };
    let Some(prices) = prices(alloc, &chain) else {
        return Ok(());
    };
    println!(rt; "tables {}", count_tables(alloc, &chain, &prices))
}
