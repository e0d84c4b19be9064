//! Columns, and what a basis and a journal say of them.

/// A column of the simplex: its entries that aren't 0, by ascending rows, under a key that no other column has.
#[derive(Debug, Drop)]
pub struct Column {
    pub key: Vec<u32>,
    pub entries: Vec<(u32, i128)>,
}

/// What stands in one row of a basis.
#[derive(Clone, Copy, Debug, PartialEq, Eq)]
pub enum Item {
    /// The unit column of this row.
    Unit(u32),
    /// The stored column at this place.
    Column(u32),
}

/// An exchange in a basis: the row whose item leaves, and the key of the column that enters.
#[derive(Debug, Drop)]
pub struct KeyPivot {
    pub row: u32,
    pub key: Vec<u32>,
}
