//! The sign of a pair.

/// Which way round two positions stand in their inverse pair.
#[derive(Clone, Copy, Debug, PartialEq, Eq)]
pub enum Sign {
    /// The lesser position comes first.
    Plus,
    /// The greater position comes first.
    Minus,
}
