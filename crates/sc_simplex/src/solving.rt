//! The simplex method over an oracle.

ghost use Rattle.std.specs.Prelude.{◌≡◌, ◌<◌, ◌≤◌, ◌^◌, length, IfOk, IfErr};
ghost use Rattle.sc_basis.specs.Products.{at, IsNonNegative};
ghost use Rattle.sc_rows.specs.Places.{IsWideBy};
ghost use Rattle.sc_rows.specs.declared.fault.RowFault.{RowFault as Refusal};
ghost use Rattle.sc_simplex.specs.inside.Evidence.{IsWideSomeValue};
ghost use Rattle.sc_simplex.specs.Optima.{IsOptimum, IsStopped, IsSumOfColumns};
ghost use Rattle.sc_simplex.specs.inside.Stops.{IsStopBy, IsStopByOracle, IsMadeOf};

use crate::state::{State, step};
use crate::values::values_of;
use crate::{Answer, Column, Columns, Item, KeyPivot, Oracle, OracleFault};
use sc_fraction::Frac;
use sc_rows::{PriceRows, RowFault, WideAt};
use std::alloc::Global;

/// An optimal basis.
#[derive(Drop)]
pub struct Optimum {
    /// What stands in each row.
    pub basis: Vec<Item>,
    /// The value of each row's item.
    pub values: Vec<Frac>,
    /// The prices of the basis.
    pub prices: PriceRows,
    /// The columns that entered, each once, in the order in which they first did.
    pub columns: Columns,
    /// The pivots that led to the basis.
    pub journal: Vec<KeyPivot>,
}

/// Why no optimal basis was reached.
#[derive(Debug, Drop)]
pub enum SimplexFault {
    /// All pivots were made, and this column improves still.
    Budget {
        journal: Vec<KeyPivot>,
        column: Column,
    },
    /// After these pivots an operation is too wide.
    Wide {
        journal: Vec<KeyPivot>,
        at: WideAt,
    },
    /// There was no memory.
    Memory,
}

/// The fault after these pivots.
fn stopped(journal: Vec<KeyPivot>, fault: RowFault) -> SimplexFault
    ensures { IsStopBy result journal.items fault }
{
    match fault {
        RowFault::Wide(at) => SimplexFault::Wide { journal, at },
        RowFault::Memory => SimplexFault::Memory,
    }
}

/// The fault of the oracle after these pivots.
fn shown(journal: Vec<KeyPivot>, fault: OracleFault) -> SimplexFault
    ensures { IsStopByOracle result journal.items fault }
{
    match fault {
        OracleFault::Wide(at) => SimplexFault::Wide { journal, at },
        OracleFault::Memory => SimplexFault::Memory,
    }
}

/// The state as an answer, with the values of its items.
fn with_values(alloc: Global, state: State, rhs: &Vec<i128>) -> Result<Optimum, SimplexFault>
    requires few { length state.rows < 2 ^ 32 }
    requires sides { length rhs.now.items ≡ length state.rows }
    ensures optimum { IfOk result (IsMadeOf state (at rhs.now.items)) }
    ensures stopped { IfErr result (λ fault. (f : Refusal) × IsStopBy fault state.journal.items f × IsWideBy (IsWideSomeValue state.rows (at rhs.now.items)) f) }
{
    let State {
        rows,
        prices,
        basis,
        columns,
        journal,
    } = state;
    match values_of(alloc, &rows, rhs) {
        Ok(values) => Ok(Optimum {
            basis,
            values,
            prices,
            columns,
            journal,
        }),
        Err(fault) => Err(stopped(journal, fault)),
    }
}

/// An optimal basis for the right side, by at most `budget` lawful pivots from the basis of the unit columns.
pub fn solve<O: Oracle>(
    alloc: Global,
    rhs: &Vec<i128>,
    oracle: &mut O,
    budget: u32,
) -> Result<Optimum, SimplexFault>
    requires few { length rhs.now.items < 2 ^ 32 }
    requires size { O.size oracle.old ≡ length rhs.now.items }
    requires not_negative { IsNonNegative (length rhs.now.items) (at rhs.now.items) }
    requires budget { 0 < budget }
    requires feasible { IsSumOfColumns (O.is_column oracle.old) (length rhs.now.items) (at rhs.now.items) }
    ensures optimum { IfOk result (IsOptimum (O.is_column oracle.old) (length rhs.now.items) (at rhs.now.items) budget) }
    ensures stopped { IfErr result (IsStopped (O.is_column oracle.old) (O.shows oracle.old) (length rhs.now.items) (at rhs.now.items) budget) }
{
    let Ok(mut state) = State::start(alloc, rhs.len()) else {
        return Err(SimplexFault::Memory);
    };
    for _turn in 0..budget {
        let column = match oracle.improving(alloc, &state.prices) {
            Ok(Answer::Improving(column)) => column,
            Ok(Answer::Optimal) => return with_values(alloc, state, rhs),
            Err(fault) => return Err(shown(state.journal, fault)),
        };
        if let Err(fault) = step(alloc, &mut state, rhs, &*oracle, column) {
            return Err(stopped(state.journal, fault));
        }
    }
    match oracle.improving(alloc, &state.prices) {
        Ok(Answer::Improving(column)) => Err(SimplexFault::Budget {
            journal: state.journal,
            column,
        }),
        Ok(Answer::Optimal) => with_values(alloc, state, rhs),
        Err(fault) => Err(shown(state.journal, fault)),
    }
}
