//! Columns by their keys, in the order in which they were first seen.

ghost use Rattle.std.specs.Prelude.{◌≡◌, ◌<◌, ℕ, Ok, Some, [], ◌∷◌, ◌++◌, length, slice_get, IfSome, IfNone, IfOk, IfErr, OnOk, OnErr};
ghost use Rattle.sc_simplex.specs.Columns.{IsKeyAt, HaveDistinctKeys};

use crate::Column;
use indexmap::IndexMap;
use std::alloc::{AllocFailed, Global};
use std::marker::Model;

/// There was no memory for this column, which comes back.
#[derive(Debug, Drop)]
pub struct Refused {
    pub column: Column,
}

/// A list of columns, no two with equal keys. A column keeps its place.
#[derive(Drop)]
pub struct Columns {
    stored: IndexMap<Vec<u32>, Column>,
}

impl Model for Columns {
    ghost use Rattle.std.specs.Prelude.{List};
    ghost use Rattle.sc_simplex.specs.declared.column.Column.{Column};

    ghost Value = { List Column };

    ghost use Rattle.sc_simplex.specs.Stored.{HaveOwnKeys};
    ghost use Rattle.indexmap.specs.IndexMap.{values};

    ghost view = { λ s. values s.stored };

    ghost invariant = { λ s. HaveOwnKeys s.stored };
}

impl Columns {
    /// No columns.
    pub fn empty(alloc: Global) -> Columns
        ensures { result ≡ [] }
    {
        Columns {
            stored: IndexMap::new(alloc),
        }
    }

    /// How many columns there are.
    pub fn len(&self) -> usize
        ensures value { result ≡ length self.now }
        ensures distinct { HaveDistinctKeys self.now }
    {
        self.stored.len()
    }

    /// The column at a place.
    pub fn at(&self, i: usize) -> &Column
        requires { i < length self.now }
        ensures { slice_get self.now i ≡ Some result.now }
    {
        &self.stored[i]
    }

    /// The place of the column with this key.
    pub fn find(&self, key: &Vec<u32>) -> Option<usize>
        ensures distinct { HaveDistinctKeys self.now }
        ensures found { IfSome result (λ i. IsKeyAt self.now i key.now.items) }
        ensures missing { IfNone result ((i : ℕ) → IsKeyAt self.now i key.now.items → ⊥) }
    {
        self.stored.get_index_of(key)
    }

    /// The place of the column with this key. Where there is none, the column is put behind the others.
    pub fn push(&mut self, column: Column) -> Result<usize, Refused>
        ensures known { (i : ℕ) → IsKeyAt self.old i column.key.items → (result ≡ Ok i) × (self.new ≡ self.old) }
        ensures added { ((i : ℕ) → IsKeyAt self.old i column.key.items → ⊥) → OnOk result ((result ≡ Ok (length self.old)) × (self.new ≡ self.old ++ column ∷ [])) }
        ensures refused { IfErr result (λ r. r.column ≡ column) }
        ensures unchanged { OnErr result (self.new ≡ self.old) }
    {
        match self.find(&column.key) {
            Some(place) => Ok(place),
            None => self.append(column),
        }
    }

    // Puts a column behind the others.
    fn append(&mut self, column: Column) -> Result<usize, Refused>
        requires { (i : ℕ) → IsKeyAt self.old i column.key.items → ⊥ }
        ensures place { IfOk result (λ i. i ≡ length self.old) }
        ensures added { OnOk result (self.new ≡ self.old ++ column ∷ []) }
        ensures refused { IfErr result (λ r. r.column ≡ column) }
        ensures unchanged { OnErr result (self.new ≡ self.old) }
    {
        let Ok(key) = column.key.clone() else {
            return Err(Refused { column });
        };
        let place = self.stored.len();
        match self.stored.insert(key, column) {
            Ok(_) => Ok(place),
            Err(AllocFailed { value: (_, column) }) => Err(Refused { column }),
        }
    }
}
