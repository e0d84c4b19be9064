//! Numbers of fixed point. Sums and products that don't fit 64 bits are cut to the nearest number that does, or wrap in
//! the loops over the inverse, whose time counts: such a number makes worse advice and nothing else.

/// The bits behind the point of prices, costs, excesses and of the entries of the inverse.
pub const PRICE_BITS: u32 = 32;

/// The number 1 with `PRICE_BITS` bits behind the point.
pub const ONE: i64 = 1 << PRICE_BITS;

/// The bits behind the point of the values of a basis and of the right side.
pub const VALUE_BITS: u32 = 48;

/// The bits behind the point of the weights by which excesses are compared.
pub(crate) const WEIGHT_BITS: u32 = 16;

/// The bits, beside the sign, to which the factors of a product are cut where it has to fit 64 bits.
pub(crate) const NARROW_BITS: u32 = 31;

/// A number cut to 64 bits.
pub(crate) fn cut(x: i128) -> i64 {
    if x < i128::from(i64::MIN) {
        i64::MIN
    } else if x > i128::from(i64::MAX) {
        i64::MAX
    } else {
        x as i64
    }
}

/// A product, which always fits.
pub(crate) fn product(x: i64, y: i64) -> i128 {
    i128::from(x).wrapping_mul(i128::from(y))
}

/// A number times a factor with `PRICE_BITS` bits behind the point.
pub(crate) fn scaled(x: i64, factor: i64) -> i64 {
    cut(product(x, factor) >> PRICE_BITS)
}

/// A number divided by one with `PRICE_BITS` bits behind the point, and 0 where that is 0.
pub(crate) fn quotient(x: i64, divisor: i64) -> i64 {
    cut(
        product(x, ONE)
            .checked_div(i128::from(divisor))
            .unwrap_or(0),
    )
}

/// The sum of the products of two lists, each of which fits unless the numbers have gone astray.
pub(crate) fn inner_product(xs: &[i64], ys: &[i64]) -> i64 {
    let mut sum = 0_i64;
    for (x, y) in xs.iter().zip(ys) {
        sum = sum.wrapping_add(x.wrapping_mul(*y));
    }
    sum
}

/// How many bits a number of this size has more than so many.
pub(crate) fn excess_bits(size: u64, bits: u32) -> u32 {
    u64::BITS
        .saturating_sub(size.leading_zeros())
        .saturating_sub(bits)
}

/// By how many bits a number of this size is shifted so that it has `NARROW_BITS`.
pub(crate) fn narrowing(size: u64) -> u32 {
    excess_bits(size, NARROW_BITS)
}
