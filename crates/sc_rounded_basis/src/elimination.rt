//! The inverse after an exchange: the only part of the search whose time counts. Some exchanges are held back and then
//! made list by list, so that each list is fetched from memory once for all of them.

use crate::basis::Basis;
use crate::fixed::{PRICE_BITS, narrowing, quotient};
use crate::limits::HELD_EXCHANGES;
use std::alloc::{AllocError, Global};

/// What a list of the inverse is multiplied by in an exchange: its entry of the leaving row over the pivot.
#[derive(Clone, Copy)]
struct Multiple {
    /// With `PRICE_BITS` bits behind the point.
    whole: i64,
    /// Cut to `NARROW_BITS`.
    narrow: i32,
    /// How many bits too many a product of it and a factor has.
    excess: u32,
}

/// An exchange that the lists of the inverse don't have yet.
#[derive(Drop)]
pub(crate) struct Held {
    leaving: usize,
    pivot: i64,
    /// The entries of the image, shifted by so many bits so that they have `NARROW_BITS`; that of the leaving row is 0.
    factors: Vec<i32>,
    shift: u32,
    /// For each list of the inverse.
    multiples: Vec<Multiple>,
}

/// The greatest size of an entry of the image beside that of the leaving row.
fn greatest_size(image: &[i64], leaving: usize) -> u64 {
    let mut greatest = 0;
    for (row, entry) in image.iter().enumerate() {
        if row != leaving {
            greatest = greatest.max(entry.unsigned_abs());
        }
    }
    greatest
}

/// The entries of the image shifted, and 0 in the leaving row.
fn factors(
    alloc: Global,
    image: &[i64],
    leaving: usize,
    shift: u32,
) -> Result<Vec<i32>, AllocError> {
    let mut factors = Vec::with_capacity(alloc, image.len())?;
    for (row, entry) in image.iter().enumerate() {
        factors.push(if row == leaving {
            0
        } else {
            narrowed(*entry, shift)
        })?;
    }
    Ok(factors)
}

/// What a list with this entry in the leaving row is multiplied by.
fn multiple_of(entry: i64, pivot: i64, shift: u32) -> Multiple {
    let whole = quotient(entry, pivot);
    let more = narrowing(whole.unsigned_abs());
    Multiple {
        whole,
        narrow: narrowed(whole, more),
        excess: PRICE_BITS.saturating_sub(shift.saturating_add(more)),
    }
}

/// A number shifted so that it has `NARROW_BITS`.
fn narrowed(x: i64, shift: u32) -> i32 {
    i32::try_from(x.wrapping_shr(shift)).unwrap_or(0)
}

/// What a multiple takes off an entry with this factor. The product fits, since both have `NARROW_BITS`.
fn part(multiple: Multiple, factor: i32) -> i64 {
    i64::from(multiple.narrow)
        .wrapping_mul(i64::from(factor))
        .wrapping_shr(multiple.excess)
}

/// Takes a multiple of the factors off a list.
fn subtract_products(list: &mut [i64], factors: &[i32], multiple: Multiple) {
    for (entry, factor) in list.iter_mut().zip(factors) {
        *entry = entry.wrapping_sub(part(multiple, *factor));
    }
}

impl Held {
    /// Makes the exchange in a list, which is multiplied by this.
    fn change(&self, list: &mut [i64], multiple: Multiple) {
        if multiple.whole == 0 {
            return;
        }
        subtract_products(list, self.factors.as_slice(), multiple);
        if let Some(entry) = list.get_mut(self.leaving) {
            *entry = multiple.whole;
        }
    }

    /// Makes the exchange in a column.
    fn change_column(&self, column: &mut [i64]) {
        let entry = column.get(self.leaving).copied().unwrap_or(0);
        self.change(column, multiple_of(entry, self.pivot, self.shift));
    }

    /// Makes the exchange in one entry of a list of the inverse.
    fn changed(&self, list: usize, row: usize, entry: i64) -> i64 {
        let (Some(multiple), Some(factor)) = (self.multiples.get(list), self.factors.get(row))
        else {
            return entry;
        };
        if row == self.leaving {
            return multiple.whole;
        }
        entry.wrapping_sub(part(*multiple, *factor))
    }
}

/// Makes exchanges in a list of the inverse.
fn change_list(held: &[Held], number: usize, list: &mut [i64]) {
    for exchange in held {
        if let Some(multiple) = exchange.multiples.get(number) {
            exchange.change(list, *multiple);
        }
    }
}

/// An entry of a list of the inverse after exchanges.
fn entry_after(held: &[Held], number: usize, row: usize, list: &[i64]) -> i64 {
    let mut entry = list.get(row).copied().unwrap_or(0);
    for exchange in held {
        entry = exchange.changed(number, row, entry);
    }
    entry
}

impl Basis {
    /// Makes the exchanges that were held back in a column.
    pub(crate) fn change_image(&mut self) {
        for exchange in &self.held {
            exchange.change_column(self.image.as_mut_slice());
        }
    }

    /// The entries of a row of the inverse, one for each row of the chain.
    pub(crate) fn row(&self, alloc: Global, row: usize) -> Result<Vec<i64>, AllocError> {
        let mut entries = Vec::with_capacity(alloc, self.inverse.len())?;
        for (number, list) in self.inverse.iter().enumerate() {
            entries.push(entry_after(self.held.as_slice(), number, row, list.as_slice()))?;
        }
        Ok(entries)
    }

    /// Makes the exchanges that were held back.
    pub(crate) fn settle(&mut self) {
        for (number, list) in self.inverse.iter_mut().enumerate() {
            change_list(self.held.as_slice(), number, list.as_mut_slice());
        }
        self.held.clear();
    }

    /// Puts the column that was looked at in the place of the leaving row's item, in the inverse alone. The row's
    /// entries are handed in.
    pub(crate) fn eliminate(
        &mut self,
        alloc: Global,
        leaving: usize,
        row: &[i64],
    ) -> Result<(), AllocError> {
        let pivot = self.image.get(leaving).copied().unwrap_or(0);
        let shift = narrowing(greatest_size(self.image.as_slice(), leaving));
        let factors = factors(alloc, self.image.as_slice(), leaving, shift)?;
        let multiples = row
            .iter()
            .map(|entry| multiple_of(*entry, pivot, shift))
            .collect(alloc)?;
        self.held.push(Held {
            leaving,
            pivot,
            factors,
            shift,
            multiples,
        })?;
        if self.held.len() >= HELD_EXCHANGES {
            self.settle();
        }
        Ok(())
    }
}
