use super::*;
use sc_whole::{Op, Wide};
use std::cmp::Ordering;
use std::hash::{DefaultHasher, Hash, Hasher};
use std::test::Fail;

const MIN: i128 = i128::MIN;

const MAX: i128 = i128::MAX;
// 2^100
const LARGE: i128 = 1267650600228229401496703205376;

fn wide(op: Op, x: i128, y: i128) -> Wide {
    Wide { op, x, y }
}

#[test]
fn quotients_are_reduced(rt: HostRuntime) {
    let cases = [
        (6, -4, Ok((-3, 2))),
        (-6, -4, Ok((3, 2))),
        (-6, 4, Ok((-3, 2))),
        (0, -5, Ok((0, 1))),
        (0, MIN, Ok((0, 1))),
        (7, 7, Ok((1, 1))),
        (MIN, MIN, Ok((1, 1))),
        (MIN, 1, Ok((MIN, 1))),
        (MIN, -2, Ok((MIN / -2, 1))),
        (2, MIN, Ok((-1, MIN / -2))),
        (MIN, MAX, Ok((MIN, MAX))),
        (1, 0, Err(FracFault::Zero)),
        (0, 0, Err(FracFault::Zero)),
        (1, MIN, Err(FracFault::Wide(wide(Op::Sub, 0, MIN)))),
        (MIN, -1, Err(FracFault::Wide(wide(Op::Sub, 0, MIN)))),
        (MIN, -3, Err(FracFault::Wide(wide(Op::Sub, 0, MIN)))),
    ];
    for (num, den, wanted) in cases {
        let found = Frac::new(num, den).map(|f| (f.num(), f.den()));
        assert_eq!(rt; found, wanted, "{num} over {den}");
    }
}

#[test]
fn sums_and_differences(rt: HostRuntime) -> Result<(), Fail> {
    let cases = [
        ((1, 2), (1, 3), Ok((5, 6)), Ok((1, 6))),
        ((1, 6), (1, 10), Ok((4, 15)), Ok((1, 15))),
        ((1, 2), (-1, 2), Ok((0, 1)), Ok((1, 1))),
        ((0, 1), (-7, 3), Ok((-7, 3)), Ok((7, 3))),
        (
            (3, LARGE),
            (1, LARGE),
            Ok((1, LARGE / 4)),
            Ok((1, LARGE / 2)),
        ),
        (
            (MAX, 1),
            (1, 1),
            Err(wide(Op::Add, MAX, 1)),
            Ok((MAX - 1, 1)),
        ),
        (
            (MIN, 1),
            (1, 1),
            Ok((MIN + 1, 1)),
            Err(wide(Op::Sub, MIN, 1)),
        ),
        (
            (LARGE, 1),
            (1, LARGE),
            Err(wide(Op::Mul, LARGE, LARGE)),
            Err(wide(Op::Mul, LARGE, LARGE)),
        ),
        (
            (1, LARGE),
            (LARGE, 1),
            Err(wide(Op::Mul, LARGE, LARGE)),
            Err(wide(Op::Mul, LARGE, LARGE)),
        ),
        (
            (1, MAX),
            (1, MAX - 1),
            Err(wide(Op::Add, MAX - 1, MAX)),
            Err(wide(Op::Mul, MAX, MAX - 1)),
        ),
    ];
    for ((a, b), (c, e), sum, difference) in cases {
        let (x, y) = (Frac::new(a, b)?, Frac::new(c, e)?);
        assert_eq!(rt;
            x.plus(&y).map(|f| (f.num(), f.den())),
            sum,
            "{x:?} plus {y:?}"
        );
        assert_eq!(rt;
            x.minus(&y).map(|f| (f.num(), f.den())),
            difference,
            "{x:?} minus {y:?}"
        );
    }
    Ok(())
}

#[test]
fn products_and_ratios(rt: HostRuntime) -> Result<(), Fail> {
    let cases = [
        ((1, 2), (-3, 4), Ok((-3, 8)), Ok((-2, 3))),
        (
            (MAX, 2),
            (2, MAX),
            Ok((1, 1)),
            Err(FracFault::Wide(wide(Op::Mul, MAX, MAX))),
        ),
        ((MAX, 2), (MAX, 3), Err(wide(Op::Mul, MAX, MAX)), Ok((3, 2))),
        (
            (1, LARGE),
            (1, LARGE - 1),
            Err(wide(Op::Mul, LARGE, LARGE - 1)),
            Ok((LARGE - 1, LARGE)),
        ),
        ((0, 1), (5, 3), Ok((0, 1)), Ok((0, 1))),
        ((5, 3), (0, 1), Ok((0, 1)), Err(FracFault::Zero)),
        ((0, 1), (0, 1), Ok((0, 1)), Err(FracFault::Zero)),
        (
            (1, 1),
            (MIN, 1),
            Ok((MIN, 1)),
            Err(FracFault::Wide(wide(Op::Sub, 0, MIN))),
        ),
        (
            (MIN, 1),
            (-1, 1),
            Err(wide(Op::Mul, MIN, -1)),
            Err(FracFault::Wide(wide(Op::Mul, MIN, -1))),
        ),
    ];
    for ((a, b), (c, e), product, ratio) in cases {
        let (x, y) = (Frac::new(a, b)?, Frac::new(c, e)?);
        assert_eq!(rt;
            x.times(&y).map(|f| (f.num(), f.den())),
            product,
            "{x:?} times {y:?}"
        );
        assert_eq!(rt;
            x.over(&y).map(|f| (f.num(), f.den())),
            ratio,
            "{x:?} over {y:?}"
        );
    }
    Ok(())
}

#[test]
fn order_equality_and_hash(rt: HostRuntime) -> Result<(), Fail> {
    let cases = [
        ((1, 3), (1, 2), Ordering::Less),
        ((-1, 3), (-1, 2), Ordering::Greater),
        ((-1, 3), (0, 1), Ordering::Less),
        ((0, 1), (1, MAX), Ordering::Less),
        ((7, 3), (5, 2), Ordering::Less),
        ((14, 6), (7, 3), Ordering::Equal),
        ((MIN, 1), (MAX, 1), Ordering::Less),
        // whole parts that agree, and cross products near 2^254
        ((MAX, MAX - 1), (MAX - 1, MAX - 2), Ordering::Less),
        ((MIN, MAX), (MIN + 2, MAX - 2), Ordering::Greater),
        ((MIN + 1, MAX - 1), (MIN, MAX), Ordering::Less),
        ((MAX - 1, MAX), (MAX - 2, MAX - 1), Ordering::Greater),
    ];
    for ((a, b), (c, e), wanted) in cases {
        let (x, y) = (Frac::new(a, b)?, Frac::new(c, e)?);
        assert_eq!(rt; x.cmp(&y), wanted, "{x:?} against {y:?}");
        assert_eq!(rt; y.cmp(&x), wanted.reverse(), "{y:?} against {x:?}");
        assert_eq!(rt; x == y, wanted.is_eq(), "{x:?} and {y:?}");
        assert_eq!(rt;
            hash_of(&x) == hash_of(&y),
            wanted.is_eq(),
            "hashes of {x:?} and {y:?}"
        );
    }
    Ok(())
}

fn hash_of(fraction: &Frac) -> u64 {
    let mut hasher = DefaultHasher::new();
    fraction.hash(&mut hasher);
    hasher.finish()
}

#[test]
fn printed_text(rt: HostRuntime) -> Result<(), Fail> {
    let mut text = Vec::from_slice(rt.alloc(), b"value ")?;
    Frac::new(6, -4)?.print(&mut text)?;
    assert_eq!(rt; text.as_slice(), b"value -3/2".as_slice());
    text.clear();
    Frac::new(0, 9)?.print(&mut text)?;
    assert_eq!(rt; text.as_slice(), b"0/1".as_slice());
    text.clear();
    Frac::new(MIN, MAX)?.print(&mut text)?;
    assert_eq!(rt;
        text.as_slice(),
        b"-170141183460469231731687303715884105728/170141183460469231731687303715884105727".as_slice()
    );
    Ok(())
}
