//! Distance tables.

ghost use Rattle.std.specs.Prelude.{◌≡◌, ◌↔◌, ◌<◌, ◌++◌, true, [], ◌∷◌, length, get_or, IsSome, IfSome, OnOk, OnErr};
ghost use Rattle.std.specs.List.{list_all, AllByRecursion};
ghost use Rattle.std.specs.Option.{option_map_or};
ghost use Rattle.sc_theory.specs.Prices.{entry};
ghost use Rattle.sc_text.specs.PriceLines.{of_size};
ghost use Rattle.sc_text.specs.TableLines.{IsEntryInRange};
ghost use Rattle.sc_certificate.specs.Sizes.{AreSmallTables};

use sc_text::limits::MAX_ENTRY;
use std::alloc::{AllocError, Global};
use std::marker::Model;

/// The distances from a start to each position, or none, all of them in their range.
#[derive(Debug, Drop)]
pub struct Table {
    entries: Vec<Option<i128>>,
}

impl Model for Table {
    ghost use Rattle.std.specs.Prelude.{List, Option, ℤ};
    ghost use Rattle.std.specs.List.{AllByRecursion};
    ghost use Rattle.sc_text.specs.TableLines.{IsEntryInRange};

    ghost Value = { List (Option ℤ) };

    ghost view = { λ r. r.entries.items };

    ghost invariant = { λ r. AllByRecursion IsEntryInRange r.entries.items };
}

/// A table for each start.
#[derive(Debug, Drop)]
pub struct Tables {
    tables: Vec<Table>,
}

impl Model for Tables {
    ghost use Rattle.std.specs.Prelude.{List, Option, ℤ};

    ghost Value = { List (List (Option ℤ)) };

    ghost use Rattle.sc_certificate.specs.Sizes.{AreSmallTables};

    ghost view = { λ t. t.tables.items };

    ghost invariant = { λ t. AreSmallTables t.tables.items };
}

/// Whether an entry is none or in the range of distances.
fn is_small_entry(entry: Option<i128>) -> bool
    ensures { result ≡ option_map_or (of_size MAX_ENTRY) entry true }
{
    match entry {
        None => true,
        Some(number) => number >= -MAX_ENTRY && number <= MAX_ENTRY,
    }
}

/// Whether all these entries are none or in the range of distances.
fn are_small_entries(entries: &[Option<i128>]) -> bool
    ensures { result ≡ list_all (λ entry. option_map_or (of_size MAX_ENTRY) entry true) entries.now }
{
    entries.iter().all(|entry| is_small_entry(*entry))
}

impl Table {
    /// The table of these entries. There is none exactly where a number is out of its range.
    pub fn new(entries: Vec<Option<i128>>) -> Option<Table>
        ensures some { IsSome result ↔ AllByRecursion IsEntryInRange entries.items }
        ensures table { IfSome result (λ t. t ≡ entries.items) }
    {
        if are_small_entries(entries.as_slice()) {
            Some(Table { entries })
        } else {
            None
        }
    }

    /// The table of entries that are in their range.
    pub fn of_small(entries: Vec<Option<i128>>) -> Table
        requires { AllByRecursion IsEntryInRange entries.items }
        ensures { result ≡ entries.items }
    {
        Table { entries }
    }

    /// The entries in the order of the positions.
    pub fn entries(&self) -> &[Option<i128>]
        ensures entries { result.now ≡ self.now }
        ensures small { AllByRecursion IsEntryInRange self.now }
    {
        self.entries.as_slice()
    }
}

impl Tables {
    /// No tables.
    pub fn new(alloc: Global) -> Tables
        ensures { result ≡ [] }
    {
        Tables {
            tables: Vec::new(alloc),
        }
    }

    /// Tables that are in their range.
    pub fn of_small(tables: Vec<Table>) -> Tables
        requires { AreSmallTables tables.items }
        ensures { result ≡ tables.items }
    {
        Tables { tables }
    }

    /// Puts a table behind the others. They stay as they are where memory runs out.
    pub fn push(&mut self, table: Table) -> Result<(), AllocError>
        ensures ok { OnOk result (self.new ≡ self.old ++ table ∷ []) }
        ensures err { OnErr result (self.new ≡ self.old) }
    {
        // a look at the table, so that its invariant is known: its entries are in their range
        let _ = &table.entries;
        self.tables.push(table)?;
        Ok(())
    }

    /// How many tables there are.
    pub fn len(&self) -> usize
        ensures count { result ≡ length self.now }
        ensures small { AreSmallTables self.now }
    {
        self.tables.len()
    }

    /// The entries of the table of a start, in the order of the positions.
    pub fn table(&self, start: usize) -> &[Option<i128>]
        requires { start < length self.now }
        ensures table { result.now ≡ get_or self.now start [] }
        ensures small { AreSmallTables self.now }
    {
        self.tables[start].entries()
    }

    /// The entry of the table of a start at a position, and none where there is no such table or no such position.
    pub fn entry(&self, start: usize, place: usize) -> Option<i128>
        ensures entry { result ≡ entry self.now start place }
        ensures in_range { IsEntryInRange result }
    {
        let entries = self.tables.get(start)?.entries();
        *entries.get(place)?
    }
}
