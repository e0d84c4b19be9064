//! Price lists.

ghost use Rattle.std.specs.Prelude.{◌≡◌, ◌↔◌, ◌&&◌, pos, IsSome, IfSome};
ghost use Rattle.std.specs.List.{list_all};
ghost use Rattle.sc_line.specs.Faults.{from_to};
ghost use Rattle.sc_text.specs.PriceLines.{of_size};
ghost use Rattle.sc_certificate.specs.Sizes.{IsSmallList, list_of};

use sc_text::limits::MAX_PRICE;
use std::marker::Model;

/// A scale, a price for each word of a chain, and a price for each of its inverse pairs, all of them in their ranges.
#[derive(Debug, Drop)]
pub struct PriceList {
    scale: i128,
    base: Vec<i128>,
    pair: Vec<i128>,
}

impl Model for PriceList {
    ghost use Rattle.sc_theory.specs.Prices.{Prices};

    ghost Value = { Prices };

    ghost use Rattle.sc_certificate.specs.Sizes.{IsSmallList, list_of};

    ghost view = { λ l. list_of l.scale l.base.items l.pair.items };

    ghost invariant = { λ l. IsSmallList (list_of l.scale l.base.items l.pair.items) };
}

/// Whether a number is in the range of scales.
fn is_scale(number: i128) -> bool
    ensures { result ≡ from_to (pos 1) MAX_PRICE number }
{
    number >= 1 && number <= MAX_PRICE
}

/// Whether a number is in the range of prices.
fn is_price(number: i128) -> bool
    ensures { result ≡ of_size MAX_PRICE number }
{
    number >= -MAX_PRICE && number <= MAX_PRICE
}

/// Whether all these numbers are in the range of prices.
fn are_prices(numbers: &[i128]) -> bool
    ensures { result ≡ list_all (of_size MAX_PRICE) numbers.now }
{
    numbers.iter().all(|number| is_price(*number))
}

/// Whether a scale and prices are in their ranges.
fn is_small(scale: i128, base: &[i128], pair: &[i128]) -> bool
    ensures { result ≡ (from_to (pos 1) MAX_PRICE scale && list_all (of_size MAX_PRICE) base.now && list_all (of_size MAX_PRICE) pair.now) }
{
    is_scale(scale) && are_prices(base) && are_prices(pair)
}

impl PriceList {
    /// The list of these prices. There is none exactly where a number is out of its range.
    pub fn new(scale: i128, base: Vec<i128>, pair: Vec<i128>) -> Option<PriceList>
        ensures some { IsSome result ↔ IsSmallList (list_of scale base.items pair.items) }
        ensures list { IfSome result (λ l. l ≡ list_of scale base.items pair.items) }
    {
        if is_small(scale, base.as_slice(), pair.as_slice()) {
            Some(PriceList { scale, base, pair })
        } else {
            None
        }
    }

    /// The list of prices that are in their ranges.
    pub fn of_small(scale: i128, base: Vec<i128>, pair: Vec<i128>) -> PriceList
        requires { IsSmallList (list_of scale base.items pair.items) }
        ensures { result ≡ list_of scale base.items pair.items }
    {
        PriceList { scale, base, pair }
    }

    /// The scale: what a covering list asks of each closed walk.
    pub fn scale(&self) -> i128
        ensures scale { result ≡ self.now.scale }
        ensures small { IsSmallList self.now }
    {
        self.scale
    }

    /// The price of each word, in the order of the words.
    pub fn base(&self) -> &[i128]
        ensures base { result.now ≡ self.now.base }
        ensures small { IsSmallList self.now }
    {
        self.base.as_slice()
    }

    /// The price of each inverse pair, in the order of the pairs.
    pub fn pair(&self) -> &[i128]
        ensures pair { result.now ≡ self.now.pair }
        ensures small { IsSmallList self.now }
    {
        self.pair.as_slice()
    }
}
