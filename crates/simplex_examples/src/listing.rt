//! Columns as they are listed.

/// A column of a list: its key, and its entries by ascending rows.
#[derive(Clone, Copy, Debug)]
pub struct Listing {
    pub key: &'static [u32],
    pub entries: &'static [(u32, i128)],
}
