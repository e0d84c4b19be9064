ghost use Rattle.std.specs.Prelude.{◌≡◌, false, IfOk, IsTrue};
ghost use Rattle.std.specs.Ordering.{is_gt};
ghost use Rattle.sc_weight.specs.Levels.{levels_cmp};

use super::*;
use sc_whole::{Op, Wide};
use std::cmp::Ordering;

// The order is total.
fn least<W: Weight>(x: &W, y: &W, z: &W) -> W
    ensures first { is_gt (levels_cmp (W.levels result) (W.levels x.now)) ≡ false }
    ensures second { is_gt (levels_cmp (W.levels result) (W.levels y.now)) ≡ false }
    ensures third { is_gt (levels_cmp (W.levels result) (W.levels z.now)) ≡ false }
{
    let low = lesser(x, y);
    lesser(&low, z)
}

fn lesser<W: Weight>(x: &W, y: &W) -> W
    ensures first { is_gt (levels_cmp (W.levels result) (W.levels x.now)) ≡ false }
    ensures second { is_gt (levels_cmp (W.levels result) (W.levels y.now)) ≡ false }
{
    if x.compare(y).is_gt() { *y } else { *x }
}

// Sums commute and associate.
fn sums_agree<W: Weight>(x: &W, y: &W, z: &W) -> Result<bool, WideLevel>
    ensures { IfOk result IsTrue }
{
    let left = x.plus(y)?.plus(z)?;
    let right = z.plus(y)?.plus(x)?;
    Ok(left.compare(&right).is_eq())
}

// Zero adds nothing.
fn plus_zero<W: Weight>(x: &W) -> Result<W, WideLevel>
    ensures { IfOk result (λ w. w ≡ x.now) }
{
    x.plus(&W::zero())
}

// Minus undoes plus.
fn plus_and_minus<W: Weight>(x: &W, y: &W) -> Result<W, WideLevel>
    ensures { IfOk result (λ w. w ≡ x.now) }
{
    x.plus(y)?.minus(y)
}

// Adding keeps the order.
fn order_after_plus<W: Weight>(x: &W, y: &W, z: &W) -> Result<Ordering, WideLevel>
    ensures { IfOk result (λ o. o ≡ levels_cmp (W.levels x.now) (W.levels y.now)) }
{
    Ok(x.plus(z)?.compare(&y.plus(z)?))
}

fn total<W: Weight>(list: &[W]) -> Result<W, WideLevel> {
    let mut sum = W::zero();
    for weight in list {
        sum = sum.plus(weight)?;
    }
    Ok(sum)
}

fn pair(bulk: i128, fine: i128) -> Pair {
    Pair { bulk, fine }
}

fn wide<W>(level: Level, op: Op, x: i128, y: i128) -> Result<W, WideLevel> {
    Err(WideLevel {
        level,
        wide: Wide { op, x, y },
    })
}

#[test]
fn laws_hold_at_both_types(rt: HostRuntime) {
    let (x, y, z) = (Plain(3), Plain(-7), Plain(5));
    assert_eq!(rt; least(&x, &y, &z), y);
    assert_eq!(rt; sums_agree(&x, &y, &z), Ok(true));
    assert_eq!(rt; plus_zero(&x), Ok(x));
    assert_eq!(rt; plus_and_minus(&x, &y), Ok(x));
    assert_eq!(rt; order_after_plus(&x, &y, &z), Ok(Ordering::Greater));
    assert_eq!(rt; total(&[x, y, z]), Ok(Plain(1)));
    assert_eq!(rt; total::<Plain>(&[]), Ok(Plain(0)));

    let (x, y, z) = (pair(0, 9), pair(1, -8), pair(0, 10));
    assert_eq!(rt; least(&x, &y, &z), x);
    assert_eq!(rt; sums_agree(&x, &y, &z), Ok(true));
    assert_eq!(rt; plus_zero(&x), Ok(x));
    assert_eq!(rt; plus_and_minus(&x, &y), Ok(x));
    assert_eq!(rt; order_after_plus(&x, &y, &z), Ok(Ordering::Less));
    assert_eq!(rt; total(&[x, y, z]), Ok(pair(1, 11)));
}

#[test]
fn a_wide_level_is_named(rt: HostRuntime) {
    let (least, greatest) = (i128::MIN, i128::MAX);
    let plain = [
        (
            Plain(greatest).plus(&Plain(1)),
            wide(Level::Fine, Op::Add, greatest, 1),
        ),
        (Plain(greatest).plus(&Plain(0)), Ok(Plain(greatest))),
        (
            Plain(0).minus(&Plain(least)),
            wide(Level::Fine, Op::Sub, 0, least),
        ),
        (Plain(-1).minus(&Plain(least)), Ok(Plain(greatest))),
    ];
    for (i, (found, wanted)) in plain.into_iter().enumerate() {
        assert_eq!(rt; found, wanted, "plain case {i}");
    }
    let pairs = [
        (
            pair(greatest, 0).plus(&pair(1, 0)),
            wide(Level::Bulk, Op::Add, greatest, 1),
        ),
        (
            pair(0, greatest).plus(&pair(5, 2)),
            wide(Level::Fine, Op::Add, greatest, 2),
        ),
        (
            pair(greatest, greatest).plus(&pair(3, 2)),
            wide(Level::Bulk, Op::Add, greatest, 3),
        ),
        (
            pair(greatest, least).plus(&pair(-1, 1)),
            Ok(pair(greatest - 1, least + 1)),
        ),
        (
            pair(least, 4).minus(&pair(1, 9)),
            wide(Level::Bulk, Op::Sub, least, 1),
        ),
        (
            pair(4, least).minus(&pair(1, 9)),
            wide(Level::Fine, Op::Sub, least, 9),
        ),
        (
            pair(least, least).minus(&pair(1, 9)),
            wide(Level::Bulk, Op::Sub, least, 1),
        ),
        (pair(4, 2).minus(&pair(6, -2)), Ok(pair(-2, 4))),
    ];
    for (i, (found, wanted)) in pairs.into_iter().enumerate() {
        assert_eq!(rt; found, wanted, "pair case {i}");
    }
}

#[test]
fn bulk_counts_before_fine(rt: HostRuntime) {
    let cases = [
        (pair(1, i128::MIN), pair(0, i128::MAX), Ordering::Greater),
        (pair(i128::MIN, 0), pair(i128::MAX, 0), Ordering::Less),
        (pair(3, -1), pair(3, 0), Ordering::Less),
        (pair(3, 2), pair(3, 2), Ordering::Equal),
    ];
    for (x, y, wanted) in cases {
        assert_eq!(rt; x.compare(&y), wanted, "{x:?} against {y:?}");
        assert_eq!(rt; y.compare(&x), wanted.reverse(), "{y:?} against {x:?}");
    }
    assert_eq!(rt; Plain(-4).compare(&Plain(3)), Ordering::Less);
    assert_eq!(rt;
        Plain(i128::MAX).compare(&Plain(i128::MIN)),
        Ordering::Greater
    );
}
