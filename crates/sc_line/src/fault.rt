//! What is wrong with a line, why a text isn't read, and why a line isn't.

ghost use Rattle.std.specs.Prelude.{◌≡◌};
ghost use Rattle.sc_line.specs.declared.fault.LineFault.TheVariants.{Malformed, Memory};
ghost use Rattle.sc_line.specs.declared.fault.TextFault.TheVariants as text_faults;

use std::alloc::{AllocError, AllocFailed};
use thiserror::Error;

/// What is wrong with a line of a text.
#[derive(Clone, Copy, Debug, PartialEq, Eq)]
pub enum Kind {
    /// A field where a coefficient is due isn't one.
    Coefficient,
    /// A coefficient stands alone.
    MissingWord,
    /// A field where a word is due has something other than letters.
    Letter,
    /// A field follows the word.
    Extra,
    /// There is a byte over 127.
    NotAscii,
    /// The line between two chains is missing, or stands twice.
    Separator,
    /// The line isn't of the form that is due.
    Form,
    /// A number is outside its range, or a fraction isn't reduced.
    Range,
    /// A word isn't reduced.
    NotReduced,
    /// The text ends before the line does.
    Ended,
    /// Bytes follow the last line.
    Rest,
}

/// Why a text isn't read.
#[derive(Clone, Copy, Debug, PartialEq, Eq, Error)]
pub enum TextFault {
    /// The first line that is wrong, counted from 1, and what is wrong with it first.
    #[error("line {line} is malformed: {kind:?}")]
    Malformed { line: u32, kind: Kind },
    /// Memory ran out.
    #[error("memory ran out")]
    Memory,
}

impl From<AllocError> for TextFault {
    ghost from_gives = { λ _ fault. fault ≡ text_faults.Memory };

    fn from(_: AllocError) -> TextFault {
        TextFault::Memory
    }
}

impl<T: Drop> From<AllocFailed<T>> for TextFault {
    ghost from_gives = { λ _ fault. fault ≡ text_faults.Memory };

    fn from(_: AllocFailed<T>) -> TextFault {
        TextFault::Memory
    }
}

/// Why a line isn't read.
#[derive(Clone, Copy, Debug, PartialEq, Eq)]
pub enum LineFault {
    /// The first kind that applies to the line.
    Malformed(Kind),
    /// Memory ran out.
    Memory,
}

impl From<Kind> for LineFault {
    ghost from_gives = { λ kind fault. fault ≡ Malformed kind };

    fn from(kind: Kind) -> LineFault {
        LineFault::Malformed(kind)
    }
}

impl From<AllocError> for LineFault {
    ghost from_gives = { λ _ fault. fault ≡ Memory };

    fn from(_: AllocError) -> LineFault {
        LineFault::Memory
    }
}

impl<T: Drop> From<AllocFailed<T>> for LineFault {
    ghost from_gives = { λ _ fault. fault ≡ Memory };

    fn from(_: AllocFailed<T>) -> LineFault {
        LineFault::Memory
    }
}
