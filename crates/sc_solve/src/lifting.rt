//! The lift: the prices of an optimal basis at two levels as one price list, which covers.

ghost use Rattle.std.specs.Prelude.{◌≡◌, ◌⊎◌, ◌↔◌, ◌<◌, ◌≤◌, ◌+◌, ◌*◌, ℕ, length, map, pos, None, ◌+ℤ◌, ◌*ℤ◌, ◌<ℤ◌, ◌≤ℤ◌, ◌^◌, unsigned_abs, IsTrue, IfOk, IfErr};
ghost use Rattle.std.specs.List.{range_with_len, AllByRecursion};
ghost use Rattle.sc_theory.specs.Chains.{positions, IsChain};
ghost use Rattle.sc_theory.specs.Prices.{pairs as pairs_of, Covers};
ghost use Rattle.sc_chain.specs.declared.limits.TheConstants.{MAX_POSITIONS};
ghost use Rattle.sc_theory.specs.Columns.{rows};
ghost use Rattle.sc_text.specs.PriceLines.{IsPriceInRange, IsScaleInRange};
ghost use Rattle.sc_whole.specs.Operation.{step, StepFits};
ghost use Rattle.sc_basis.specs.Products.{at};
ghost use Rattle.sc_rows.specs.Standing.{ArePrices};
ghost use Rattle.sc_rows.specs.Places.{spot, IsWide, IsWideBy};
ghost use Rattle.sc_simplex.specs.Oracles.{NoneImproves};
ghost use Rattle.sc_tables.specs.StepPrices.{AreForChain};
ghost use Rattle.sc_solve.specs.PriceLevels.{lifted_price, HaveNoBulk};
ghost use Rattle.sc_solve.specs.PolygonColumns.{IsPolygonColumn};
ghost use Rattle.sc_solve.specs.inside.Lifts.{fine_in, IsSizeOfStep};
ghost use Rattle.sc_solve.specs.Lifts.{IsGreatestSize, IsWideTurned, IsFullFactor, IsFactor, IsLift, IsWideBefore, IsWideSum, IsWideNumber, IsWideRow, IsWideLift, IsLiftFault, IsLargeAt};

use crate::levels::{pair_of_row, refused, step_prices};
use sc_certificate::PriceList;
use sc_chain::{Chain, Pairs};
use sc_rows::{Place, PriceRows, RowFault, WideAt};
use sc_tables::StepPrices;
use sc_text::limits::MAX_PRICE;
use sc_weight::Pair;
use sc_whole::{Op, Wide, add, mul};
use std::alloc::Global;

/// Why prices have no lift.
#[derive(Debug, Drop)]
pub enum LiftFault {
    /// An exact result is too wide, or a lifted number is 2^90 or more in size.
    Wide(WideAt),
    /// There was no memory.
    Memory,
}

/// Whether all numbers of a list are 0.
fn are_all_zero(list: &[i128]) -> bool
    ensures { IsTrue result ↔ ((k : ℕ) → k < length list.now → at list.now k ≡ pos 0) }
{
    list.iter().all(|number| *number == 0)
}

/// The size of a price, where 0 minus it isn't too wide.
fn size_of(price: i128) -> Result<i128, Wide>
    ensures size { IfOk result (λ size. size ≡ pos (unsigned_abs price)) }
    ensures wide { IfErr result (λ w. (w ≡ step Op.Sub (pos 0) price) × ¬ StepFits (step Op.Sub (pos 0) price)) }
{
    match price.checked_abs() {
        Some(size) => Ok(size),
        None => Err(Wide {
            op: Op::Sub,
            x: 0,
            y: price,
        }),
    }
}

/// The size of the fine price of a step, and 0 where there is no step.
fn step_size(
    chain: &Chain,
    steps: &StepPrices<Pair>,
    from: usize,
    to: usize,
) -> Result<i128, WideAt>
    requires few { positions chain.now ≤ MAX_POSITIONS }
    requires steps { AreForChain chain.now steps.now }
    requires from { from < positions chain.now }
    requires to { to < positions chain.now }
    ensures size { IfOk result (IsSizeOfStep chain.now (fine_in steps.now) from to) }
    ensures faults { IfErr result (IsWideTurned chain.now (fine_in steps.now)) }
{
    if !chain.is_step(from, to) {
        return Ok(0);
    }
    let (first, second) = (from as u32, to as u32);
    let price = steps.price(first, second);
    match size_of(price.fine) {
        Ok(size) => Ok(size),
        Err(wide) => Err(refused(Place::LiftTurn, first, second, wide)),
    }
}

/// The greater of two numbers.
fn greater(x: i128, y: i128) -> i128
    ensures first { x ≤ℤ result }
    ensures second { y ≤ℤ result }
    ensures one { (result ≡ x) ⊎ (result ≡ y) }
{
    if x < y { y } else { x }
}

/// The greatest size of the fine price of a step, and 0 where there is no step.
fn greatest_size(chain: &Chain, steps: &StepPrices<Pair>) -> Result<i128, WideAt>
    requires steps { AreForChain chain.now steps.now }
    ensures greatest { IfOk result (IsGreatestSize chain.now (fine_in steps.now)) }
    ensures faults { IfErr result (IsWideTurned chain.now (fine_in steps.now)) }
{
    let side = chain.positions();
    let mut greatest = 0;
    // One loop over the cells of a square: a loop in a loop would need an invariant for each.
    for cell in 0..side * side {
        let size = step_size(chain, steps, cell / side, cell % side)?;
        greatest = greater(greatest, size);
    }
    Ok(greatest)
}

/// `x * y` at a place of the lift.
fn multiply(place: Place, row: u32, x: i128, y: i128) -> Result<i128, WideAt>
    ensures value { IfOk result (λ z. z ≡ x *ℤ y) }
    ensures evidence { IfErr result (IsWide (spot place row 0 None) Op.Mul x y) }
{
    match mul(x, y) {
        Ok(product) => Ok(product),
        Err(wide) => Err(refused(place, row, 0, wide)),
    }
}

/// `x + y` at a place of the lift.
fn sum_of(place: Place, row: u32, x: i128, y: i128) -> Result<i128, WideAt>
    ensures value { IfOk result (λ z. z ≡ x +ℤ y) }
    ensures evidence { IfErr result (IsWide (spot place row 0 None) Op.Add x y) }
{
    match add(x, y) {
        Ok(sum) => Ok(sum),
        Err(wide) => Err(refused(place, row, 0, wide)),
    }
}

/// A small count as a number of 128 bits.
fn number_of(count: usize) -> i128
    requires { count ≤ MAX_POSITIONS }
    ensures { result ≡ pos count }
{
    count as i128
}

/// The scale plus the positions times the size.
fn factor_by(scale: i128, positions: usize, size: i128) -> Result<i128, WideAt>
    requires { positions ≤ MAX_POSITIONS }
    ensures factor { IfOk result (λ z. z ≡ scale +ℤ pos positions *ℤ size) }
    ensures faults { IfErr result (IsWideSum scale positions size) }
{
    let product = multiply(Place::LiftMul, 0, number_of(positions), size)?;
    let factor = sum_of(Place::LiftAdd, 0, scale, product)?;
    Ok(factor)
}

/// The fine scale plus the positions times the greatest size of a fine step price.
fn full_factor(
    alloc: Global,
    chain: &Chain,
    pairs: &Pairs,
    prices: &PriceRows,
) -> Result<i128, RowFault>
    requires pairs { pairs.now ≡ pairs_of chain.now }
    requires prices { ArePrices (rows chain.now) prices.now }
    requires some_bulk { ¬ HaveNoBulk (rows chain.now) prices.now }
    ensures factor { IfOk result (IsFullFactor chain.now prices.now) }
    ensures faults { IfErr result (IsWideBy (IsWideBefore chain.now prices.now)) }
{
    let steps = step_prices(alloc, chain, pairs, prices)?;
    let size = greatest_size(chain, &steps)?;
    let factor = factor_by(prices.fine.scale, chain.positions(), size)?;
    Ok(factor)
}

/// By what the bulk prices are multiplied.
fn factor_of(
    alloc: Global,
    chain: &Chain,
    pairs: &Pairs,
    prices: &PriceRows,
) -> Result<i128, RowFault>
    requires pairs { pairs.now ≡ pairs_of chain.now }
    requires prices { ArePrices (rows chain.now) prices.now }
    ensures factor { IfOk result (IsFactor chain.now prices.now) }
    ensures faults { IfErr result (IsWideBy (IsWideBefore chain.now prices.now)) }
{
    if are_all_zero(prices.bulk.entries.as_slice()) {
        Ok(0)
    } else {
        full_factor(alloc, chain, pairs, prices)
    }
}

/// The refusal of a lifted number that is 2^90 or more in size.
fn too_large(row: u32, number: i128) -> WideAt
    ensures { IsLargeAt row number result }
{
    let wide = Wide {
        op: Op::Size,
        x: number,
        y: MAX_PRICE + 1,
    };
    refused(Place::LiftSize, row, 0, wide)
}

/// A price of a row, which is below 2^90 in size.
fn small_price(row: u32, price: i128) -> Result<i128, WideAt>
    ensures price { IfOk result (λ z. z ≡ price) }
    ensures small { IfOk result IsPriceInRange }
    ensures faults { IfErr result (λ w. IsLargeAt row price w × ¬ IsPriceInRange price) }
{
    if price >= -MAX_PRICE && price <= MAX_PRICE {
        Ok(price)
    } else {
        Err(too_large(row, price))
    }
}

/// A fine price plus the factor times a bulk price, those of a row.
fn lifted_number(row: u32, fine: i128, factor: i128, bulk: i128) -> Result<i128, WideAt>
    ensures price { IfOk result (λ z. z ≡ fine +ℤ factor *ℤ bulk) }
    ensures small { IfOk result IsPriceInRange }
    ensures faults { IfErr result (IsWideNumber row fine factor bulk) }
{
    let product = multiply(Place::LiftBulk, row, factor, bulk)?;
    let lifted = sum_of(Place::LiftSum, row, fine, product)?;
    let price = small_price(row, lifted)?;
    Ok(price)
}

/// The lifted price of a row.
fn lifted_at(prices: &PriceRows, factor: i128, row: usize) -> Result<i128, WideAt>
    requires few { row < 2 ^ 32 }
    requires bulk { row < length prices.now.bulk.entries.items }
    requires fine { row < length prices.now.fine.entries.items }
    ensures price { IfOk result (λ z. z ≡ lifted_price prices.now factor row) }
    ensures small { IfOk result IsPriceInRange }
    ensures faults { IfErr result (IsWideRow prices.now factor row) }
{
    let pair = pair_of_row(prices, row);
    let price = lifted_number(row as u32, pair.fine, factor, pair.bulk)?;
    Ok(price)
}

/// The lifted prices of some rows.
fn lifted_rows(
    alloc: Global,
    prices: &PriceRows,
    factor: i128,
    first: usize,
    count: usize,
) -> Result<Vec<i128>, RowFault>
    requires few { first + count < 2 ^ 32 }
    requires bulk { first + count ≤ length prices.now.bulk.entries.items }
    requires fine { first + count ≤ length prices.now.fine.entries.items }
    ensures prices { IfOk result (λ list. list.items ≡ map (lifted_price prices.now factor) (range_with_len first count)) }
    ensures small { IfOk result (λ list. AllByRecursion IsPriceInRange list.items) }
    ensures faults { IfErr result (IsWideBy (λ w. (row : ℕ) × (row < first + count) × IsWideRow prices.now factor row w)) }
{
    let mut list = Vec::with_capacity(alloc, count)?;
    for n in 0..count {
        let price = lifted_at(prices, factor, first + n)?;
        list.push(price)?;
    }
    Ok(list)
}

/// The scale, which is below 2^90.
fn small_scale(scale: i128, rows: u32) -> Result<i128, WideAt>
    requires { pos 0 <ℤ scale }
    ensures scale { IfOk result (λ z. (z ≡ scale) × IsScaleInRange z) }
    ensures faults { IfErr result (λ w. IsLargeAt rows scale w × ¬ IsScaleInRange scale) }
{
    if scale <= MAX_PRICE {
        Ok(scale)
    } else {
        Err(too_large(rows, scale))
    }
}

/// The lift, or its refusal.
fn lifted(
    alloc: Global,
    chain: &Chain,
    pairs: &Pairs,
    prices: &PriceRows,
) -> Result<PriceList, RowFault>
    requires pairs { pairs.now ≡ pairs_of chain.now }
    requires prices { ArePrices (rows chain.now) prices.now }
    ensures lift { IfOk result (IsLift chain.now prices.now) }
    ensures chain { IsChain chain.now }
    ensures faults { IfErr result (IsWideBy (IsWideLift chain.now prices.now)) }
{
    let (count, words) = (pairs.count(), chain.words());
    let factor = factor_of(alloc, chain, pairs, prices)?;
    let pair = lifted_rows(alloc, prices, factor, 0, count)?;
    let base = lifted_rows(alloc, prices, factor, count, words)?;
    let scale = small_scale(prices.fine.scale, (count + words) as u32)?;
    Ok(PriceList::of_small(scale, base, pair))
}

/// The lift of the prices of a basis: each fine price plus M times the bulk price, over the fine scale. M is 0 where
/// all bulk prices are 0, and else the fine scale plus the positions times the greatest size of a fine step price.
pub fn lift(
    alloc: Global,
    chain: &Chain,
    pairs: &Pairs,
    prices: &PriceRows,
) -> Result<PriceList, LiftFault>
    requires pairs { pairs.now ≡ pairs_of chain.now }
    requires prices { ArePrices (rows chain.now) prices.now }
    ensures lift { IfOk result (IsLift chain.now prices.now) }
    ensures covers { NoneImproves (IsPolygonColumn chain.now) (rows chain.now) prices.now → IfOk result (Covers chain.now) }
    ensures faults { IfErr result (IsLiftFault chain.now prices.now) }
{
    match lifted(alloc, chain, pairs, prices) {
        Ok(list) => Ok(list),
        Err(RowFault::Wide(at)) => Err(LiftFault::Wide(at)),
        Err(RowFault::Memory) => Err(LiftFault::Memory),
    }
}
