//! Weight times price over the words of a chain.

ghost use Rattle.std.specs.Prelude.{◌≡◌, ◌+◌, ◌*◌, ◌<◌, ◌≤◌, length, get_or, pos, ◌*ℤ◌};
ghost use Rattle.sc_theory.specs.Chains.{weight, word, weighted_length};
ghost use Rattle.sc_chain.specs.Faults.{IsSmallChain};
ghost use Rattle.sc_chain.specs.declared.limits.TheConstants.{MAX_WORDS};
ghost use Rattle.sc_text.specs.PriceLines.{IsPriceInRange};
ghost use Rattle.sc_certificate.specs.Bounds.{bound_from, IsWithinPrices};

use crate::price_list::PriceList;
use sc_chain::Chain;

/// The price of a word, and 0 past the list's end.
pub fn word_price(list: &PriceList, w: usize) -> i128
    ensures price { result ≡ get_or list.now.base w (pos 0) }
    ensures small { IsPriceInRange result }
{
    list.base().get(w).copied().unwrap_or(0)
}

/// The price of the word `w` of a chain, as often as its weight says. The first word is the list's word number `from`.
fn weighted_price(chain: &Chain, list: &PriceList, from: usize, w: usize) -> i128
    requires from { from ≤ MAX_WORDS }
    requires in_range { w < length chain.now }
    requires chain { IsSmallChain chain.now }
    ensures price { result ≡ pos (weight chain.now w) *ℤ get_or list.now.base (from + w) (pos 0) }
    ensures small { IsWithinPrices (weight chain.now w * length (word chain.now w)) result }
{
    i128::from(chain.weight(w)) * word_price(list, from + w)
}

/// The sum of weight times price over the words of a chain, the first of which is the list's word number `from`.
pub fn bound_from(chain: &Chain, list: &PriceList, from: usize) -> i128
    requires { from ≤ MAX_WORDS }
    ensures bound { result ≡ bound_from chain.now list.now from }
    ensures small { IsWithinPrices (weighted_length chain.now) result }
{
    let mut total = 0;
    for w in 0..chain.words() {
        total += weighted_price(chain, list, from, w);
    }
    total
}
