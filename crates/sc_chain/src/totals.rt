//! The totals of words and chains.

ghost use Rattle.std.specs.Prelude.{◌≡◌, ◌<◌, ◌≤◌, ◌^◌, pos, neg_ℤ, ◌*ℤ◌, ◌≤ℤ◌, length, ℕ, count_by};
ghost use Rattle.sc_theory.specs.Words.{is_positive, is_negative, total};
ghost use Rattle.sc_theory.specs.Chains.{chain_total, word};
ghost use Rattle.sc_chain.specs.declared.limits.TheConstants.{MAX_POSITIONS, MAX_WORDS};

use sc_words::{Letter, Word};

/// How often a generator stands in a word.
fn count_positive(word: &[Letter], generator: u8) -> usize
    ensures { result ≡ count_by (is_positive generator) word.now }
{
    word.iter()
        .filter(|letter| letter.number == generator && !letter.inverse)
        .count()
}

/// How often the inverse of a generator stands in a word.
fn count_negative(word: &[Letter], generator: u8) -> usize
    ensures { result ≡ count_by (is_negative generator) word.now }
{
    word.iter()
        .filter(|letter| letter.number == generator && letter.inverse)
        .count()
}

/// The total of a generator in a short word.
fn total_in_word(word: &[Letter], generator: u8) -> i64
    requires { length word.now ≤ MAX_POSITIONS }
    ensures total { result ≡ total generator word.now }
    ensures low { neg_ℤ (pos MAX_POSITIONS) ≤ℤ result }
    ensures high { result ≤ℤ pos MAX_POSITIONS }
{
    count_positive(word, generator) as i64 - count_negative(word, generator) as i64
}

/// The total of a generator in a short word with its weight.
fn weighted_total(entry: &(u32, Word), generator: u8) -> i64
    requires { length entry.now.1 ≤ MAX_POSITIONS }
    ensures total { result ≡ pos entry.now.0 *ℤ total generator entry.now.1 }
    ensures low { neg_ℤ (pos (2 ^ 38)) ≤ℤ result }
    ensures high { result ≤ℤ pos (2 ^ 38) }
{
    i64::from(entry.0) * total_in_word(entry.1.as_slice(), generator)
}

/// The total of a generator in few short words with their weights.
pub fn total_in_words(words: &[(u32, Word)], generator: u8) -> i64
    requires few { length words.now ≤ MAX_WORDS }
    requires short { (w : ℕ) → w < length words.now → length (word words.now w) ≤ MAX_POSITIONS }
    ensures { result ≡ chain_total generator words.now }
{
    let mut total = 0;
    for entry in words {
        total += weighted_total(entry, generator);
    }
    total
}
