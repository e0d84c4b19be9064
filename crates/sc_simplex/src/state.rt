//! The state of the solver between two pivots, and one pivot.

ghost use Rattle.std.specs.Prelude.{◌≡◌, ℕ, ◌+◌, ◌<◌, ◌^◌, [], length, get_or, true, false, Some, IfOk, IfErr, OnOk, OnErr};
ghost use Rattle.sc_basis.specs.Products.{at, IsNonNegative};
ghost use Rattle.sc_basis.specs.Bases.{IsAscending, unit_basis};
ghost use Rattle.sc_basis.specs.Pivots.{IsLeaving};
ghost use Rattle.sc_rows.specs.Standing.{RowsStand, PricesStand, numbers_of};
ghost use Rattle.sc_rows.specs.Places.{IsWideBy};
ghost use Rattle.sc_simplex.specs.declared.column.Item.TheVariants.{Unit as UnitOf};
ghost use Rattle.sc_simplex.specs.Oracles.{ImprovesAt};
ghost use Rattle.sc_simplex.specs.Optima.{no_item};
ghost use Rattle.sc_simplex.specs.inside.Evidence.{IsWideFor, IsWideTold, speaks_of_column};
ghost use Rattle.sc_simplex.specs.inside.States.{IsReady, RowsFollow, PricesFollow, IsState, IsNoted};

use crate::leaving::leaving_row;
use crate::{Column, Columns, Item, KeyPivot, Oracle};
use sc_rows::{Place, PriceRows, RowFault, RowSet, WideAt};
use std::alloc::{AllocError, Global};

/// A basis with its rows and prices, and what led to it.
#[derive(Drop)]
pub(crate) struct State {
    pub(crate) rows: RowSet,
    pub(crate) prices: PriceRows,
    pub(crate) basis: Vec<Item>,
    pub(crate) columns: Columns,
    pub(crate) journal: Vec<KeyPivot>,
}

/// Whether an operation at this place is one with an entering column.
fn has_column(place: Place) -> bool
    ensures { result ≡ speaks_of_column place }
{
    !matches!(place, Place::ValueMul | Place::ValueAdd)
}

/// The refusal with the key of the entering column, where its place speaks of one.
fn told(mut at: WideAt, key: Vec<u32>) -> WideAt
    ensures spoken { speaks_of_column at.place ≡ true → result ≡ record at { entering = Some key } }
    ensures silent { speaks_of_column at.place ≡ false → result ≡ at }
{
    if has_column(at.place) {
        at.entering = Some(key);
    }
    at
}

/// The row whose item leaves for the column, which then stands in its place in the rows and prices.
fn exchange(
    alloc: Global,
    rows: &mut RowSet,
    prices: &mut PriceRows,
    rhs: &Vec<i128>,
    column: &Vec<(u32, i128)>,
) -> Result<usize, RowFault>
    requires few { length rows.old < 2 ^ 32 }
    requires sides { length rhs.now.items ≡ length rows.old }
    requires ascending { IsAscending (length rows.old) 0 column.now.items }
    requires ready { IsReady (length rows.old) rows.old prices.old column.now.items }
    ensures leaves { IfOk result (IsLeaving (length rows.old) (at rhs.now.items) (numbers_of rows.old prices.old) column.now.items) }
    ensures rows { IfOk result (λ l. RowsFollow (length rows.old) rows.old rows.new l column.now.items) }
    ensures prices { IfOk result (λ l. PricesFollow (length rows.old) rows.old prices.old prices.new l column.now.items) }
    ensures evidence { IfErr result (IsWideBy (IsWideFor (length rows.old) (at rhs.now.items) (numbers_of rows.old prices.old) column.now.items)) }
{
    let along = rows.along(alloc, column)?;
    let Some(row) = leaving_row(rows, rhs, along.as_slice())? else {
        // A column that improves has a positive product with some row.
        unreachable!()
    };
    prices.pivot(alloc, rows, row, column)?;
    rows.pivot(alloc, row, &along)?;
    Ok(row)
}

/// Stores the column, puts it into the row, and notes the pivot.
fn note(state: &mut State, row: usize, column: Column) -> Result<(), AllocError>
    requires row { row < length state.old.basis.items }
    requires few { length state.old.basis.items < 2 ^ 32 }
    requires room { length state.old.columns < 2 ^ 32 }
    ensures noted { OnOk result (IsNoted state.old state.new row column) }
    ensures kept { OnErr result (state.new.journal.items ≡ state.old.journal.items) }
{
    let key = column.key.clone()?;
    let Ok(place) = state.columns.push(column) else {
        return Err(AllocError);
    };
    state.basis[row] = Item::Column(place as u32);
    state.journal.push(KeyPivot {
        row: row as u32,
        key,
    })?;
    Ok(())
}

impl State {
    /// The basis of the unit columns.
    pub(crate) fn start(alloc: Global, r: usize) -> Result<State, AllocError>
        requires { r < 2 ^ 32 }
        ensures rows { IfOk result (λ s. RowsStand r (unit_basis r) s.rows) }
        ensures prices { IfOk result (λ s. PricesStand r (unit_basis r) s.prices) }
        ensures size { IfOk result (λ s. length s.basis.items ≡ r) }
        ensures items { IfOk result (λ s. (i : ℕ) → i < r → get_or s.basis.items i no_item ≡ UnitOf i) }
        ensures columns { IfOk result (λ s. s.columns ≡ []) }
        ensures journal { IfOk result (λ s. s.journal.items ≡ []) }
    {
        let mut basis = Vec::with_capacity(alloc, r)?;
        for row in 0..r {
            basis.push(Item::Unit(row as u32))?;
        }
        Ok(State {
            rows: RowSet::start(alloc, r)?,
            prices: PriceRows::start(alloc, r)?,
            basis,
            columns: Columns::empty(alloc),
            journal: Vec::new(alloc),
        })
    }
}

/// One pivot, in which the column enters.
pub(crate) fn step<O: Oracle>(
    alloc: Global,
    state: &mut State,
    rhs: &Vec<i128>,
    oracle: &O,
    column: Column,
) -> Result<(), RowFault>
    requires few { length rhs.now.items < 2 ^ 32 }
    requires size { O.size oracle.now ≡ length rhs.now.items }
    requires not_negative { IsNonNegative (length rhs.now.items) (at rhs.now.items) }
    requires room { length state.old.journal.items < 2 ^ 32 }
    requires state { IsState (O.is_column oracle.now) (length rhs.now.items) (at rhs.now.items) state.old }
    requires known { O.is_column oracle.now column.key.items column.entries.items }
    requires improves { ImprovesAt (length rhs.now.items) state.old.prices column.entries.items }
    ensures state { OnOk result (IsState (O.is_column oracle.now) (length rhs.now.items) (at rhs.now.items) state.new) }
    ensures longer { OnOk result (length state.new.journal.items ≡ length state.old.journal.items + 1) }
    ensures kept { OnErr result (state.new.journal.items ≡ state.old.journal.items) }
    ensures evidence { IfErr result (IsWideBy (IsWideTold (O.is_column oracle.now) (length rhs.now.items) (at rhs.now.items) (numbers_of state.old.rows state.old.prices))) }
{
    match exchange(
        alloc,
        &mut state.rows,
        &mut state.prices,
        rhs,
        &column.entries,
    ) {
        Ok(row) => Ok(note(state, row, column)?),
        Err(RowFault::Wide(at)) => Err(RowFault::Wide(told(at, column.key))),
        Err(RowFault::Memory) => Err(RowFault::Memory),
    }
}
