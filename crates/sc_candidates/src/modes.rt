//! Which modes of advice suit a chain.

use sc_advice::Mode;
use sc_chain::{Chain, Letter};
use std::alloc::{AllocError, Global};

/// Up to so many rows a chain is tried without advice first.
const FEW_ROWS: usize = 40;

/// Up to so many letters a word is short.
const SHORT_WORD: usize = 4;

/// How many pivots of a basis of one row a try takes the time for, ..
const PIVOTS_OF_ONE_ROW: u64 = 1 << 28;

/// .. and how many a row it makes in any case.
const PIVOTS_A_ROW: u64 = 8;

/// How many pivots a row a journal has at most where near polygons were good advice, ..
const GOOD_PIVOTS_A_ROW: u64 = 2;

/// .. and where those of a good surface were.
const SURFACE_PIVOTS_A_ROW: u64 = 6;

/// A try: a mode of advice, or none, with the pivots after which another one is worth more.
#[derive(Clone, Copy, Debug)]
pub struct Try {
    /// The mode.
    pub mode: Option<Mode>,
    /// The pivots.
    pub pivots: u32,
}

/// Whether a word is another one from some letter on.
fn is_turned(word: &[Letter], other: &[Letter], turn: usize) -> bool {
    let turned = other.iter().skip(turn).chain(other.iter().take(turn));
    for (letter, own) in turned.zip(word) {
        if letter != own {
            return false;
        }
    }
    word.len() == other.len()
}

/// Whether a word is another one from some letter on, this or a later one.
fn is_rotation(word: &[Letter], other: &[Letter], first: usize) -> bool {
    for turn in first..word.len() {
        if is_turned(word, other, turn) {
            return true;
        }
    }
    false
}

/// Whether a word is a proper power.
fn is_power(word: &[Letter]) -> bool {
    is_rotation(word, word, 1)
}

/// Whether some word is a proper power.
fn has_powers(chain: &Chain) -> bool {
    for (_, word) in chain.entries() {
        if is_power(word.as_slice()) {
            return true;
        }
    }
    false
}

/// Whether some word is another one up to rotation.
fn has_equal_words(chain: &Chain) -> bool {
    let entries = chain.entries();
    for (place, (_, word)) in entries.iter().enumerate() {
        for (_, other) in entries.iter().take(place) {
            if is_rotation(word.as_slice(), other.as_slice(), 0) {
                return true;
            }
        }
    }
    false
}

/// Whether a chain has symmetries: then many bases are as good.
fn is_symmetric(chain: &Chain) -> bool {
    has_equal_words(chain) || has_powers(chain)
}

/// Whether words of a chain are equal, and short on the whole.
fn has_short_equal_words(chain: &Chain) -> bool {
    has_equal_words(chain) && chain.positions() <= chain.words().saturating_mul(SHORT_WORD)
}

/// The modes that suit a chain, in the order in which they are tried. In a chain with symmetries near polygons lead to
/// a basis with small numbers, and where the words are short, those of a good surface.
fn modes(alloc: Global, chain: &Chain, is_symmetric: bool) -> Result<Vec<Mode>, AllocError> {
    let near = |thousandths| Mode::Near { thousandths };
    if has_short_equal_words(chain) {
        let modes = [Mode::Surface, Mode::Plain, near(1), near(3), near(10)];
        Vec::from_slice(alloc, modes.as_slice())
    } else if is_symmetric {
        let modes = [near(1), Mode::Plain, near(3), near(10), Mode::Surface];
        Vec::from_slice(alloc, modes.as_slice())
    } else {
        Vec::from_slice(alloc, &[Mode::Plain, near(1)])
    }
}

/// How many pivots the try of a mode makes at most. Without symmetries near polygons are tried after all others, and
/// are worth no long journal; nor are those of a good surface, which are tried again at the end.
fn pivots(mode: Mode, rows: usize, is_symmetric: bool) -> u32 {
    let rows = u64::try_from(rows).unwrap_or(u64::MAX);
    let most = PIVOTS_OF_ONE_ROW
        .checked_div(rows.saturating_mul(rows))
        .unwrap_or(0)
        .max(rows.saturating_mul(PIVOTS_A_ROW));
    let pivots = match mode {
        Mode::Plain => most.saturating_mul(4),
        Mode::Surface => rows.saturating_mul(SURFACE_PIVOTS_A_ROW),
        Mode::Near { .. } => {
            if is_symmetric {
                most
            } else {
                rows.saturating_mul(GOOD_PIVOTS_A_ROW)
            }
        }
    };
    u32::try_from(pivots).unwrap_or(u32::MAX)
}

/// The tries of a chain with so many rows, in their order.
pub fn tries(alloc: Global, chain: &Chain, rows: usize) -> Result<Vec<Try>, AllocError> {
    let is_symmetric = is_symmetric(chain);
    let mut tries = Vec::new(alloc);
    if rows <= FEW_ROWS {
        tries.push(Try {
            mode: None,
            pivots: u32::MAX,
        })?;
    }
    for mode in modes(alloc, chain, is_symmetric)? {
        tries.push(Try {
            mode: Some(mode),
            pivots: pivots(mode, rows, is_symmetric),
        })?;
    }
    Ok(tries)
}
