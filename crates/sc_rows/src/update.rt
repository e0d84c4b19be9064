//! One new row or price list by the rule with a ratio in lowest terms.
ghost use Rattle.std.specs.Prelude.{◌≡◌, ◌<◌, ◌^◌, true, length, pos, ◌*ℤ◌, ◌<ℤ◌, IfOk, IfErr, OnOk};
ghost use Rattle.sc_basis.specs.Products.{at};
ghost use Rattle.sc_rows.specs.Places.{IsWide, IsWideBy};
ghost use Rattle.sc_rows.specs.Updates.{join_op, joined, left_spot, right_spot, join_spot, scale_spot, IsWideEntry, IsWideUpdate};
ghost use Rattle.sc_rows.specs.inside.Updates.{IsUpdated, AreJoined, IsWideAmong};

use crate::lists::{Quotients, Ratio, lowest, reduce};
use crate::spot::{Spot, difference_of, multiply, sum_of};
use crate::{Place, RowFault, WideAt};
use sc_weight::Level;
use std::alloc::Global;

/// Which list is made anew, and which row leaves.
#[derive(Clone, Copy, Debug)]
pub(crate) enum Update {
    /// A row, from which the leaving one is taken away.
    Row { row: u32, leaving: u32 },
    /// The prices at a level, to which it is added.
    Prices { level: Level, leaving: u32 },
}

impl Update {
    fn left_spot(self, index: u32) -> Spot
        ensures { result ≡ left_spot self index }
    {
        match self {
            Update::Row { row, leaving } => Spot {
                place: Place::RowLeft,
                first: row,
                second: index,
                leaving: Some(leaving),
            },
            Update::Prices { level, leaving } => Spot {
                place: Place::PriceLeft { level },
                first: index,
                second: 0,
                leaving: Some(leaving),
            },
        }
    }

    fn right_spot(self, index: u32) -> Spot
        ensures { result ≡ right_spot self index }
    {
        match self {
            Update::Row { row, leaving } => Spot {
                place: Place::RowRight,
                first: row,
                second: index,
                leaving: Some(leaving),
            },
            Update::Prices { level, leaving } => Spot {
                place: Place::PriceRight { level },
                first: index,
                second: 0,
                leaving: Some(leaving),
            },
        }
    }

    fn scale_spot(self) -> Spot
        ensures { result ≡ scale_spot self }
    {
        match self {
            Update::Row { row, leaving } => Spot {
                place: Place::RowScale,
                first: row,
                second: 0,
                leaving: Some(leaving),
            },
            Update::Prices { level, leaving } => Spot {
                place: Place::PriceScale { level },
                first: 0,
                second: 0,
                leaving: Some(leaving),
            },
        }
    }

    fn join(self, index: u32, left: i128, right: i128) -> Result<i128, WideAt>
        ensures value { IfOk result (λ z. z ≡ joined self left right) }
        ensures evidence { IfErr result (IsWide (join_spot self index) (join_op self) left right) }
    {
        match self {
            Update::Row { row, leaving } => difference_of(
                Spot {
                    place: Place::RowMinus,
                    first: row,
                    second: index,
                    leaving: Some(leaving),
                },
                left,
                right,
            ),
            Update::Prices { level, leaving } => sum_of(
                Spot {
                    place: Place::PriceAdd { level },
                    first: index,
                    second: 0,
                    leaving: Some(leaving),
                },
                left,
                right,
            ),
        }
    }
}

/// Whether an entry stays as it is: the leaving row has nothing there, and the ratio's denominator changes nothing.
fn stays(ratio: Ratio, x: i128, t: i128) -> bool
    ensures { result ≡ true → (u : Update) → joined u (x *ℤ ratio.den) (ratio.num *ℤ t) ≡ x }
{
    t == 0 && (x == 0 || ratio.den == 1)
}

/// The entry at an index.
fn new_entry(update: Update, index: u32, ratio: Ratio, x: i128, t: i128) -> Result<i128, WideAt>
    ensures value { IfOk result (λ z. z ≡ joined update (x *ℤ ratio.den) (ratio.num *ℤ t)) }
    ensures evidence { IfErr result (IsWideEntry update index x t ratio.den ratio.num) }
{
    let left = multiply(update.left_spot(index), x, ratio.den)?;
    let right = multiply(update.right_spot(index), ratio.num, t)?;
    // Not a tail call: `join` has another clause on errors than this function.
    let joined = update.join(index, left, right)?;
    Ok(joined)
}

/// Makes those entries anew that don't stay.
fn change_entries(
    update: Update,
    ratio: Ratio,
    entries: &mut [i128],
    left: &[i128],
) -> Result<(), WideAt>
    requires few { length entries.old < 2 ^ 32 }
    requires same { length left.now ≡ length entries.old }
    ensures entries { OnOk result (AreJoined update (length entries.old) (at entries.old) (at left.now) ratio.den ratio.num (at entries.new)) }
    ensures evidence { IfErr result (IsWideAmong update (length entries.old) (at entries.old) (at left.now) ratio.den ratio.num) }
{
    for index in 0..left.len() {
        let (x, t) = (entries[index], left[index]);
        if !stays(ratio, x, t) {
            let entry = new_entry(update, index as u32, ratio, x, t)?;
            entries[index] = entry;
        }
    }
    Ok(())
}

/// All entries. Most of them stay, since few entries of a row aren't 0.
fn new_entries(
    alloc: Global,
    update: Update,
    ratio: Ratio,
    list: &[i128],
    left: &[i128],
) -> Result<Vec<i128>, RowFault>
    requires few { length list.now < 2 ^ 32 }
    requires same { length left.now ≡ length list.now }
    ensures size { IfOk result (λ new. length new.items ≡ length list.now) }
    ensures entries { IfOk result (λ new. AreJoined update (length list.now) (at list.now) (at left.now) ratio.den ratio.num (at new.items)) }
    ensures evidence { IfErr result (IsWideBy (IsWideAmong update (length list.now) (at list.now) (at left.now) ratio.den ratio.num)) }
{
    let mut entries = Vec::from_slice(alloc, list)?;
    change_entries(update, ratio, entries.as_mut_slice(), left)?;
    Ok(entries)
}

/// The new list, for one over `den` with this product (or gap); `left` is the leaving row over its product.
pub(crate) fn updated(
    alloc: Global,
    update: Update,
    list: &[i128],
    den: i128,
    left: &Quotients,
    product: i128,
) -> Result<Quotients, RowFault>
    requires few { length list.now < 2 ^ 32 }
    requires same { length left.now.entries ≡ length list.now }
    requires den { pos 0 <ℤ den }
    requires left_den { pos 0 <ℤ left.now.den }
    ensures size { IfOk result (λ new. length new.entries ≡ length list.now) }
    ensures updated { IfOk result (IsUpdated update (length list.now) (at list.now) den (at left.now.entries) left.now.den product) }
    ensures evidence { IfErr result (IsWideBy (IsWideUpdate update (length list.now) (at list.now) den (at left.now.entries) left.now.den product)) }
{
    let ratio = lowest(left.den, product);
    let entries = new_entries(alloc, update, ratio, list, left.entries.as_slice())?;
    let den = multiply(update.scale_spot(), den, ratio.den)?;
    Ok(reduce(entries, den))
}
