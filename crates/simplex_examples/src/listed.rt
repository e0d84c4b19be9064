//! Lists of columns as oracles.

ghost use Rattle.std.specs.Prelude.{◌≡◌, ◌+ℤ◌, ◌*ℤ◌, length, ◌↔◌, IsTrue, IfSome, IfOk};
ghost use Rattle.sc_basis.specs.Products.{at, dot};
ghost use Rattle.sc_basis.specs.Bases.{entry_of, IsAscending};
ghost use Rattle.sc_rows.specs.Standing.{ArePrices};
ghost use Rattle.sc_simplex.specs.Oracles.{ImprovesAt};
ghost use Rattle.simplex_examples.specs.inside.Improving.{AreAscending, IsImprovingOrNone};

use crate::listing::Listing;
use crate::problem::Problem;
use crate::rises::Heights;
use sc_rows::PriceRows;
use sc_simplex::{Answer, Column, Oracle, OracleFault};
use std::alloc::{AllocError, Global};

/// The sum and the product of two numbers, unless a number on the way is outside 128 bits.
fn with_term(sum: i128, x: i128, y: i128) -> Option<i128>
    ensures { IfSome result (λ z. z ≡ sum +ℤ x *ℤ y) }
{
    sum.checked_add(x.checked_mul(y)?)
}

/// The product of prices with a column, unless a number on the way is outside 128 bits.
fn price_of(prices: &[i128], column: &[(u32, i128)]) -> Option<i128>
    requires { IsAscending (length prices.now) 0 column.now }
    ensures { IfSome result (λ z. z ≡ dot (length prices.now) (at prices.now) (entry_of column.now)) }
{
    let mut sum = 0;
    for n in 0..column.len() {
        let (row, y) = column[n];
        sum = with_term(sum, prices[row as usize], y)?;
    }
    Some(sum)
}

/// Whether a column improves a basis with these prices.
fn improves(prices: &PriceRows, column: &[(u32, i128)]) -> Option<bool>
    requires prices { ArePrices (length prices.now.bulk.entries.items) prices.now }
    requires ascending { IsAscending (length prices.now.bulk.entries.items) 0 column.now }
    ensures { IfSome result (λ b. IsTrue b ↔ ImprovesAt (length prices.now.bulk.entries.items) prices.now column.now) }
{
    let bulk = price_of(prices.bulk.entries.as_slice(), column)?;
    if bulk != 0 {
        return Some(bulk < 0);
    }
    let fine = price_of(prices.fine.entries.as_slice(), column)?;
    Some(fine < prices.fine.scale)
}

/// The column at the favoured place if it improves, else the first that does.
fn improving_of(
    listings: &[Listing],
    favoured: usize,
    prices: &PriceRows,
) -> Option<Option<Listing>>
    requires prices { ArePrices (length prices.now.bulk.entries.items) prices.now }
    requires ascending { AreAscending (length prices.now.bulk.entries.items) listings.now }
    ensures { IfSome result (IsImprovingOrNone (length prices.now.bulk.entries.items) prices.now listings.now) }
{
    if favoured < listings.len() {
        let listing = listings[favoured];
        if improves(prices, listing.entries)? {
            return Some(Some(listing));
        }
    }
    for place in 0..listings.len() {
        let listing = listings[place];
        if improves(prices, listing.entries)? {
            return Some(Some(listing));
        }
    }
    Some(None)
}

/// The column as the simplex takes it.
fn column_of(alloc: Global, listing: Listing) -> Result<Column, AllocError>
    ensures key { IfOk result (λ c. c.key.items ≡ listing.key.now) }
    ensures entries { IfOk result (λ c. c.entries.items ≡ listing.entries.now) }
{
    Ok(Column {
        key: Vec::from_slice(alloc, listing.key)?,
        entries: Vec::from_slice(alloc, listing.entries)?,
    })
}

/// The columns of a problem as an oracle. At each call it favours another column, and notes whether the prices rose.
#[derive(Debug, Drop)]
pub struct Listed<'a> {
    problem: &'a Problem,
    favoured: usize,
    stride: usize,
    heights: Heights,
}

impl<'a> Listed<'a> {
    /// At each call the column that stands `stride` places further is favoured, from the first on.
    pub fn new(alloc: Global, problem: &'a Problem, stride: usize) -> Self
        ensures { result.problem.now ≡ problem.now }
    {
        Listed {
            problem,
            favoured: 0,
            stride,
            heights: Heights::new(alloc),
        }
    }

    /// Whether at each call but the first the rise value was greater than at the one before.
    pub fn rose(&self) -> bool {
        self.heights.rose()
    }
}

impl Oracle for Listed<'_> {
    ghost use Rattle.simplex_examples.specs.Problems.{IsListed};
    ghost use Rattle.simplex_examples.specs.ProblemLaws.{listed_ascending, listed_one, listed_long, columns_of};

    ghost size = { λ o. length o.problem.now.lengths.now };

    ghost is_column = { λ o key c. IsListed o.problem.now.listings.now key c };

    ghost length_row = { λ o. at o.problem.now.lengths.now };

    ghost shows = { λ o p w. ⊥ };

    fn improving(&mut self, alloc: Global, prices: &PriceRows) -> Result<Answer, OracleFault> {
        let problem = self.problem;
        if self.heights.note(alloc, prices, problem.rhs).is_err() {
            return Err(OracleFault::Memory);
        }
        self.favoured = self.favoured.wrapping_add(self.stride) % problem.listings.len().max(1);
        let found = improving_of(problem.listings, self.favoured, prices);
        let Some(improving) = found else {
            return Err(OracleFault::Memory);
        };
        let Some(listing) = improving else {
            return Ok(Answer::Optimal);
        };
        match column_of(alloc, listing) {
            Ok(column) => Ok(Answer::Improving(column)),
            Err(_) => Err(OracleFault::Memory),
        }
    }

    ghost ascending = { λ o key c h. listed_ascending o.problem.now.lengths.now o.problem.now.listings.now (columns_of o.problem.now.rhs.now o.problem.now.lengths.now o.problem.now.listings.now o.problem.now.shares o.problem.now.sound) key c h };

    ghost one = { λ o key c d h k. listed_one o.problem.now.lengths.now o.problem.now.listings.now (columns_of o.problem.now.rhs.now o.problem.now.lengths.now o.problem.now.listings.now o.problem.now.shares o.problem.now.sound) key c d h k };

    ghost long = { λ o key c h. listed_long o.problem.now.lengths.now o.problem.now.listings.now (columns_of o.problem.now.rhs.now o.problem.now.lengths.now o.problem.now.listings.now o.problem.now.shares o.problem.now.sound) key c h };
}
