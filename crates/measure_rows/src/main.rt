//! Pivots 513 rows with drawn products, so that the time of a pivot can be taken from outside: the difference of two
//! runs with other numbers of pivots. About 150 rows are changed by each pivot. The stored run is short.
#![tactic(auto)]

ghost use Rattle.std.specs.Prelude.{◌≡◌, ◌<◌, length, pos, IfOk};
ghost use Rattle.sc_basis.specs.Products.{at};

use sc_rows::{RowFault, RowSet};
use std::alloc::{AllocError, Global};
use std::io;

const ROWS: usize = 513;

const PIVOTS: u32 = 40;

/// Draws numbers by a linear congruence.
#[derive(Debug, Drop)]
struct Draw {
    state: u64,
}

impl Draw {
    fn next(&mut self) -> u64 {
        self.state = self
            .state
            .wrapping_mul(6364136223846793005)
            .wrapping_add(1442695040888963407);
        self.state >> 33
    }

    /// 0 ten times of fourteen, else 1, -1, 2 or -2.
    fn product(&mut self) -> i128 {
        match self.next() % 14 {
            0 => 1,
            1 => -1,
            2 => 2,
            3 => -2,
            _ => 0,
        }
    }
}

/// A product for each row, and 1 for the leaving one.
fn drawn(alloc: Global, draw: &mut Draw, leaving: usize) -> Result<Vec<i128>, AllocError>
    requires { leaving < ROWS }
    ensures size { IfOk result (λ along. length along.items ≡ ROWS) }
    ensures leaving { IfOk result (λ along. at along.items leaving ≡ pos 1) }
{
    let mut along = Vec::with_capacity(alloc, ROWS)?;
    for _row in 0..ROWS {
        along.push(draw.product())?;
    }
    along[leaving] = 1;
    Ok(along)
}

/// Pivots so many times.
fn pivot_often(alloc: Global, rows: &mut RowSet, pivots: u32) -> Result<(), RowFault>
    requires { length rows.old ≡ ROWS }
    ensures { length rows.new ≡ ROWS }
{
    let mut draw = Draw { state: 7 };
    for _pivot in 0..pivots {
        let leaving = draw.next() as usize % ROWS;
        rows.pivot(alloc, leaving, &drawn(alloc, &mut draw, leaving)?)?;
    }
    Ok(())
}

/// How many bits the greatest entry has, and how many entries aren't 0.
fn filled(rows: &RowSet) -> (u32, u32)
    requires { length rows.now ≡ ROWS }
{
    let mut bits = 0;
    let mut count = 0_u32;
    for row in 0..ROWS {
        for index in 0..ROWS {
            let size = rows.entry(row, index).unsigned_abs();
            if size != 0 {
                count = count.wrapping_add(1);
            }
            bits = bits.max(128_u32.wrapping_sub(size.leading_zeros()));
        }
    }
    (bits, count)
}

fn main(rt: HostRuntime) -> io::Result<()> {
    let alloc = rt.alloc();
    let mut rows = RowSet::start(alloc, ROWS)?;
    let pivoted = pivot_often(alloc, &mut rows, PIVOTS).is_ok();
    let (bits, count) = filled(&rows);
    println!(rt; "pivoted {pivoted}, entries of up to {bits} bits, {count} of them not 0")
}
