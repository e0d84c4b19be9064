//! What a certificate is judged to be.

use crate::flaws::TableFlaw;
use sc_fatgraph::FlawKind;
use sc_fraction::Frac;

/// A condition of a certificate that fails. The conditions stand in the order in which they are tried.
#[derive(Clone, Copy, Debug, PartialEq, Eq, Hash)]
pub enum Condition {
    /// The sides aren't a labelled fatgraph, and this is their first flaw.
    Flaw {
        /// What fails.
        kind: FlawKind,
        /// The number of the side or word where it fails.
        place: u32,
    },
    /// The stated value isn't the fraction of the fatgraph.
    Value,
    /// The tables don't vouch for the price list, and this is their first flaw.
    Table(TableFlaw),
    /// The price list isn't tight for the fatgraph.
    NotTight,
}

/// What a certificate is judged to be.
#[derive(Clone, Copy, Debug, PartialEq, Eq, Hash)]
pub enum Verdict {
    /// All conditions hold: the fatgraph is least over its chain, and this is its fraction.
    Optimal(Frac),
    /// This condition fails, and those before it hold.
    Rejected(Condition),
}
