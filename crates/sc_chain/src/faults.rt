//! The fault of a list of words that is no chain.

ghost use Rattle.std.specs.Prelude.{◌≡◌, ◌<◌, ◌≤◌, ◌^◌, length, MatchOption};
ghost use Rattle.sc_theory.specs.Chains.{positions, weighted_length};
ghost use Rattle.sc_chain.specs.Faults.{AreGoodBelow, IsAccepted, IsFaultOf};

use crate::fault::ChainFault;
use crate::limits::{MAX_LENGTH, MAX_POSITIONS, MAX_WORDS};
use sc_words::{Word, least_cancelling};

/// The fault of the first word that is empty or not reduced.
fn word_fault(words: &[(u32, Word)]) -> Option<ChainFault>
    requires { positions words.now < 2 ^ 32 }
    ensures { MatchOption result (AreGoodBelow words.now (length words.now)) (IsFaultOf words.now) }
{
    for (number, entry) in words.iter().enumerate() {
        let word = entry.1.as_slice();
        if word.is_empty() {
            return Some(ChainFault::EmptyWord {
                word: number as u32,
            });
        }
        if let Some(place) = least_cancelling(word) {
            return Some(ChainFault::NotReduced {
                word: number as u32,
                place: place as u32,
            });
        }
    }
    None
}

/// The letters of all words.
fn count_letters(words: &[(u32, Word)]) -> usize
    requires { positions words.now < 2 ^ 32 }
    ensures { result ≡ positions words.now }
{
    words.iter().map(|entry| entry.1.len()).sum()
}

/// The weighted length of few words.
pub fn weigh(words: &[(u32, Word)]) -> u64
    requires { positions words.now ≤ MAX_POSITIONS }
    ensures { result ≡ weighted_length words.now }
{
    let mut length = 0;
    for entry in words {
        length += u64::from(entry.0) * entry.1.len() as u64;
    }
    length
}

/// The fault of too many words, too many positions, or too great a weighted length.
fn size_fault(words: &[(u32, Word)]) -> Option<ChainFault>
    requires letters { positions words.now < 2 ^ 32 }
    requires good { AreGoodBelow words.now (length words.now) }
    ensures { MatchOption result (IsAccepted words.now) (IsFaultOf words.now) }
{
    let positions = count_letters(words);
    if words.len() > MAX_WORDS {
        return Some(ChainFault::ManyWords {
            count: words.len() as u32,
        });
    }
    if positions > MAX_POSITIONS {
        return Some(ChainFault::ManyPositions {
            count: positions as u32,
        });
    }
    let length = weigh(words);
    if length > MAX_LENGTH {
        return Some(ChainFault::Heavy { length });
    }
    None
}

/// The fault of a list of words, if it has one.
pub fn first_fault(words: &[(u32, Word)]) -> Option<ChainFault>
    requires { positions words.now < 2 ^ 32 }
    ensures { MatchOption result (IsAccepted words.now) (IsFaultOf words.now) }
{
    match word_fault(words) {
        Some(fault) => Some(fault),
        None => size_fault(words),
    }
}
