//! Pivots by hand, and a refusal at each place of rows and prices.
ghost use Rattle.std.specs.Prelude.{◌≡◌, length, IfOk};
ghost use Rattle.sc_basis.specs.Bases.{IsAscending};
ghost use Rattle.sc_rows.specs.Standing.{ArePrices};

use super::*;
use sc_weight::Level;
use sc_whole::{Op, Wide};
use std::alloc::{AllocError, Global};
use std::test::Fail;

// Numbers about 2^126, and the least but one.
const HALF: i128 = 85070591730234615865843651857942052864;

const HALF_AND_ONE: i128 = 85070591730234615865843651857942052865;

const HALF_LESS_ONE: i128 = 85070591730234615865843651857942052863;

const HALF_LESS_THREE: i128 = 85070591730234615865843651857942052861;

const MINUS_HALF: i128 = -85070591730234615865843651857942052864;

const MINUS_HALF_LESS_ONE: i128 = -85070591730234615865843651857942052863;

const MINUS_HALF_AND_ONE: i128 = -85070591730234615865843651857942052865;

const MINUS_MAX: i128 = -170141183460469231731687303715884105727;

// The column of these two numbers.
fn column_of(alloc: Global, rows: &RowSet, x: i128, y: i128) -> Result<Vec<(u32, i128)>, AllocError>
    requires { length rows.now ≡ 2 }
    ensures { IfOk result (λ c. IsAscending (length rows.now) 0 c.items) }
{
    Vec::from_slice(alloc, &[(0, x), (1, y)])
}

// Pivots the rows, unless the row can't leave.
fn pivot_rows(
    alloc: Global,
    rows: &mut RowSet,
    row: usize,
    column: &Vec<(u32, i128)>,
) -> Result<(), RowFault>
    requires two { length rows.old ≡ 2 }
    requires ascending { IsAscending (length rows.old) 0 column.now.items }
    ensures { length rows.new ≡ length rows.old }
{
    let along = rows.along(alloc, column)?;
    if row >= along.len() {
        return Ok(());
    }
    if along[row] <= 0 {
        return Ok(());
    }
    rows.pivot(alloc, row, &along)
}

// Pivots the prices, unless the row can't leave.
fn pivot_prices(
    alloc: Global,
    rows: &RowSet,
    prices: &mut PriceRows,
    row: usize,
    column: &Vec<(u32, i128)>,
) -> Result<(), RowFault>
    requires two { length rows.now ≡ 2 }
    requires prices { ArePrices (length rows.now) prices.old }
    requires ascending { IsAscending (length rows.now) 0 column.now.items }
    ensures { ArePrices (length rows.now) prices.new }
{
    let along = rows.along(alloc, column)?;
    if row >= along.len() {
        return Ok(());
    }
    if along[row] <= 0 {
        return Ok(());
    }
    prices.pivot(alloc, rows, row, column)
}

#[derive(Clone, Copy, Debug)]
enum Call {
    Along,
    Value,
    Rows,
    Prices,
}

#[derive(Clone, Copy, Debug)]
struct Step {
    row: usize,
    x: i128,
    y: i128,
}

fn called(
    alloc: Global,
    rows: &mut RowSet,
    prices: &mut PriceRows,
    call: Call,
    step: Step,
) -> Result<(), RowFault>
    requires two { length rows.old ≡ 2 }
    requires prices { ArePrices (length rows.old) prices.old }
{
    let column = column_of(alloc, rows, step.x, step.y)?;
    match call {
        Call::Along => {
            rows.along(alloc, &column)?;
        }
        Call::Value => {
            if step.row < 2 {
                rows.value(step.row, &Vec::from_slice(alloc, &[step.x, step.y])?)?;
            }
        }
        Call::Rows => pivot_rows(alloc, rows, step.row, &column)?,
        Call::Prices => pivot_prices(alloc, rows, prices, step.row, &column)?,
    }
    Ok(())
}

// The answer of a call after one pivot of two rows from the start.
fn after_pivot(alloc: Global, first: Step, call: Call, step: Step) -> Result<(), RowFault> {
    let mut rows = RowSet::start(alloc, 2)?;
    let mut prices = PriceRows::start(alloc, 2)?;
    let column = column_of(alloc, &rows, first.x, first.y)?;
    pivot_prices(alloc, &rows, &mut prices, first.row, &column)?;
    pivot_rows(alloc, &mut rows, first.row, &column)?;
    called(alloc, &mut rows, &mut prices, call, step)
}

// Each row: the first pivot's row and column; the call, its row and numbers; the place, its indices, the operation and
// the leaving row.
#[test]
fn each_place_is_named_with_its_operands(rt: HostRuntime) {
    let (bulk, fine) = (Level::Bulk, Level::Fine);
    let cases = [
        (
            (0, 2, HALF_AND_ONE),
            (Call::Along, 0, -2, 0),
            Place::AlongMul,
            (1, 0),
            (Op::Mul, MINUS_HALF_AND_ONE, -2),
            None,
        ),
        (
            (0, 1, -1),
            (Call::Along, 0, i128::MAX, 1),
            Place::AlongAdd,
            (1, 1),
            (Op::Add, i128::MAX, 1),
            None,
        ),
        (
            (0, 2, HALF_AND_ONE),
            (Call::Value, 1, -2, 0),
            Place::ValueMul,
            (1, 0),
            (Op::Mul, MINUS_HALF_AND_ONE, -2),
            None,
        ),
        (
            (0, 1, -1),
            (Call::Value, 1, i128::MAX, 1),
            Place::ValueAdd,
            (1, 1),
            (Op::Add, i128::MAX, 1),
            None,
        ),
        (
            (0, HALF, 1),
            (Call::Rows, 0, 3, 1),
            Place::RowLeft,
            (1, 1),
            (Op::Mul, HALF, 3),
            Some(0),
        ),
        (
            (1, 1, 2),
            (Call::Rows, 0, 1, MINUS_HALF_AND_ONE),
            Place::RowRight,
            (1, 0),
            (Op::Mul, MINUS_HALF_AND_ONE, 2),
            Some(0),
        ),
        (
            (0, 2, -1),
            (Call::Rows, 0, 1, MINUS_HALF),
            Place::RowMinus,
            (1, 0),
            (Op::Sub, 1, MINUS_MAX),
            Some(0),
        ),
        (
            (0, HALF, HALF_LESS_THREE),
            (Call::Rows, 1, 1, 1),
            Place::RowScale,
            (0, 0),
            (Op::Mul, HALF, 3),
            Some(1),
        ),
        (
            (0, 0, 0),
            (Call::Prices, 0, 1, i128::MIN),
            Place::GapMul { level: bulk },
            (1, 0),
            (Op::Mul, -1, i128::MIN),
            None,
        ),
        (
            (0, 0, 0),
            (Call::Prices, 0, 2, i128::MAX),
            Place::GapAdd { level: bulk },
            (1, 0),
            (Op::Add, -2, MINUS_MAX),
            None,
        ),
        (
            (0, 0, 0),
            (Call::Prices, 0, 1, i128::MAX),
            Place::GapMinus { level: bulk },
            (0, 0),
            (Op::Sub, 0, i128::MIN),
            None,
        ),
        (
            (0, 1, 0),
            (Call::Prices, 1, i128::MIN, 1),
            Place::GapMinus { level: fine },
            (0, 0),
            (Op::Sub, 1, i128::MIN),
            None,
        ),
        (
            (0, HALF, 1),
            (Call::Prices, 0, 3, 1),
            Place::PriceLeft { level: bulk },
            (1, 0),
            (Op::Mul, MINUS_HALF, 3),
            Some(0),
        ),
        (
            (1, 1, 2),
            (Call::Prices, 0, 0, MINUS_HALF_LESS_ONE),
            Place::PriceRight { level: fine },
            (0, 0),
            (Op::Mul, HALF_AND_ONE, 2),
            Some(0),
        ),
        (
            (0, 2, -1),
            (Call::Prices, 1, 1, HALF_LESS_ONE),
            Place::PriceAdd { level: fine },
            (0, 0),
            (Op::Add, i128::MAX, 1),
            Some(1),
        ),
        (
            (0, HALF, 1),
            (Call::Prices, 0, 3, 0),
            Place::PriceScale { level: fine },
            (0, 0),
            (Op::Mul, HALF, 3),
            Some(0),
        ),
    ];
    for (i, (first, call, place, indices, wide, leaving)) in cases.into_iter().enumerate() {
        let found = after_pivot(
            rt.alloc(),
            Step {
                row: first.0,
                x: first.1,
                y: first.2,
            },
            call.0,
            Step {
                row: call.1,
                x: call.2,
                y: call.3,
            },
        );
        let wanted = RowFault::Wide(WideAt {
            place,
            first: indices.0,
            second: indices.1,
            wide: Wide {
                op: wide.0,
                x: wide.1,
                y: wide.2,
            },
            walk: None,
            entering: None,
            leaving,
        });
        assert_eq!(rt; found, Err(wanted), "case {i}");
    }
}

// What two rows and their prices hold after one pivot: of each row the entries and the denominator, then the same of
// the bulk and the fine prices.
fn held_after(alloc: Global, first: Step) -> Result<[[i128; 3]; 4], RowFault> {
    let mut rows = RowSet::start(alloc, 2)?;
    let mut prices = PriceRows::start(alloc, 2)?;
    let column = column_of(alloc, &rows, first.x, first.y)?;
    pivot_prices(alloc, &rows, &mut prices, first.row, &column)?;
    pivot_rows(alloc, &mut rows, first.row, &column)?;
    let (bulk, fine) = (prices.bulk, prices.fine);
    Ok([
        [rows.entry(0, 0), rows.entry(0, 1), rows.den(0)],
        [rows.entry(1, 0), rows.entry(1, 1), rows.den(1)],
        [bulk.entries[0], bulk.entries[1], bulk.scale],
        [fine.entries[0], fine.entries[1], fine.scale],
    ])
}

#[test]
fn pivots_by_hand(rt: HostRuntime) -> Result<(), Fail> {
    let cases = [
        (
            (0, 2, HALF_AND_ONE),
            [
                [1, 0, 2],
                [MINUS_HALF_AND_ONE, 2, 2],
                [HALF_AND_ONE, -2, 2],
                [1, 0, 2],
            ],
        ),
        ((0, 4, 6), [[1, 0, 4], [-3, 2, 2], [3, -2, 2], [1, 0, 4]]),
        ((1, 0, 3), [[1, 0, 1], [0, 1, 3], [-1, 0, 1], [0, 1, 3]]),
        ((0, 0, 0), [[1, 0, 1], [0, 1, 1], [-1, -1, 1], [0, 0, 1]]),
    ];
    for (i, (first, wanted)) in cases.into_iter().enumerate() {
        let found = held_after(
            rt.alloc(),
            Step {
                row: first.0,
                x: first.1,
                y: first.2,
            },
        );
        assert_eq!(rt; found, Ok(wanted), "case {i}");
    }
    Ok(())
}
