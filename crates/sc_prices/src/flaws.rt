//! The flaws of tables that don't vouch for a price list.

/// What tables fail in.
#[derive(Clone, Copy, Debug, PartialEq, Eq, Hash)]
pub enum TableFlaw {
    /// The table of the start doesn't have 0 at the start.
    Start {
        /// The start.
        start: u32,
    },
    /// In the table of the start there is an entry at `from`, and the entry plus the price of the step to `to` is less
    /// than the entry at `to`, or there is no entry at `to`. Where the step leads back to the start, it is less than
    /// the scale.
    Step {
        /// The start.
        start: u32,
        /// Where the step begins.
        from: u32,
        /// Where it ends.
        to: u32,
    },
}
