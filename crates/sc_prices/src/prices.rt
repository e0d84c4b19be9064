//! The prices of words and of steps.

ghost use Rattle.std.specs.Prelude.{◌≡◌, ◌<◌, length};
ghost use Rattle.sc_theory.specs.Chains.{positions};
ghost use Rattle.sc_theory.specs.Prices.{pairs as inverse_pairs, price, base_price};
ghost use Rattle.sc_text.specs.PriceLines.{IsPriceInRange};
ghost use Rattle.sc_chain.specs.Pairs.{row_in, row_price};
ghost use Rattle.sc_certificate.specs.Sizes.{FitsCounts};
ghost use Rattle.sc_prices.specs.inside.Sizes.{IsOfPrices};

use sc_certificate::{PriceList, word_price};
use sc_chain::{Chain, Pairs, Sign};

/// The price of two positions: that of their pair, its sign by their order, and 0 where they are no pair.
fn pair_price(pairs: &Pairs, list: &PriceList, p: usize, q: usize) -> i128
    requires { length list.now.pair ≡ length pairs.now }
    ensures price { result ≡ row_price list.now (row_in pairs.now p q) }
    ensures small { IsPriceInRange result }
{
    match pairs.row_of(p, q) {
        Some((row, Sign::Plus)) => list.pair()[row],
        Some((row, Sign::Minus)) => -list.pair()[row],
        None => 0,
    }
}

/// The price of the word that a position is the first of, and 0 for other positions.
fn base_price(chain: &Chain, list: &PriceList, j: usize) -> i128
    requires in_range { j < positions chain.now }
    requires as_many { length list.now.base ≡ length chain.now }
    ensures price { result ≡ base_price chain.now list.now j }
    ensures small { IsPriceInRange result }
{
    match chain.word_begun_at(j) {
        Some(word) => word_price(list, word),
        None => 0,
    }
}

/// The price of the step from one position to another.
pub(crate) fn step_price(
    chain: &Chain,
    pairs: &Pairs,
    list: &PriceList,
    from: usize,
    to: usize,
) -> i128
    requires from { from < positions chain.now }
    requires to { to < positions chain.now }
    requires pairs { pairs.now ≡ inverse_pairs chain.now }
    requires sizes { FitsCounts (length chain.now) (length (inverse_pairs chain.now)) list.now }
    ensures price { result ≡ price chain.now list.now from to }
    ensures small { IsOfPrices 2 result }
{
    pair_price(pairs, list, chain.succ(from), to) + base_price(chain, list, to)
}
