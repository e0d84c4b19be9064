//! Why a list of words is no chain.

ghost use Rattle.sc_chain.specs.declared.fault.ChainFault.TheVariants as chain_faults;
ghost use Rattle.std.specs.Prelude.{◌≡◌};

use std::alloc::{AllocError, AllocFailed};

/// Why a list of words is no chain. Words and places are numbered from 0.
#[derive(Clone, Copy, Debug, PartialEq, Eq)]
pub enum ChainFault {
    /// This word has no letter.
    EmptyWord { word: u32 },
    /// In this word the letter at this place is the inverse of the next one round the word.
    NotReduced { word: u32, place: u32 },
    /// There are so many words, over `limits::MAX_WORDS`.
    ManyWords { count: u32 },
    /// The words have so many letters together, over `limits::MAX_POSITIONS`.
    ManyPositions { count: u32 },
    /// The weighted length is this, over `limits::MAX_LENGTH`.
    Heavy { length: u64 },
    /// Memory ran out.
    Memory,
}

impl From<AllocError> for ChainFault {
    ghost from_gives = { λ _ fault. fault ≡ chain_faults.Memory };

    fn from(_: AllocError) -> ChainFault {
        ChainFault::Memory
    }
}

impl<T: Drop> From<AllocFailed<T>> for ChainFault {
    ghost from_gives = { λ _ fault. fault ≡ chain_faults.Memory };

    fn from(_: AllocFailed<T>) -> ChainFault {
        ChainFault::Memory
    }
}
