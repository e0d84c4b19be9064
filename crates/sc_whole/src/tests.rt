ghost use Rattle.std.specs.Prelude.{◌≡◌, IfOk};

use super::*;
use std::alloc::{AllocError, Global};
use std::test::Fail;

// 2^126
const HALF: i128 = 85070591730234615865843651857942052864;

#[test]
fn results_are_exact_or_name_their_operands(rt: HostRuntime) {
    let cases = [
        (
            add(i128::MAX, 1),
            Err(Wide {
                op: Op::Add,
                x: i128::MAX,
                y: 1,
            }),
        ),
        (
            add(i128::MIN, -1),
            Err(Wide {
                op: Op::Add,
                x: i128::MIN,
                y: -1,
            }),
        ),
        (add(i128::MAX, i128::MIN), Ok(-1)),
        (
            sub(0, i128::MIN),
            Err(Wide {
                op: Op::Sub,
                x: 0,
                y: i128::MIN,
            }),
        ),
        (sub(-1, i128::MIN), Ok(i128::MAX)),
        (
            sub(i128::MIN, 1),
            Err(Wide {
                op: Op::Sub,
                x: i128::MIN,
                y: 1,
            }),
        ),
        (
            mul(HALF, 2),
            Err(Wide {
                op: Op::Mul,
                x: HALF,
                y: 2,
            }),
        ),
        (mul(-HALF, 2), Ok(i128::MIN)),
        (
            mul(i128::MIN, -1),
            Err(Wide {
                op: Op::Mul,
                x: i128::MIN,
                y: -1,
            }),
        ),
        (mul(i128::MIN, 1), Ok(i128::MIN)),
        (mul(i128::MIN, 0), Ok(0)),
        (mul(-12, -12), Ok(144)),
    ];
    for (i, (found, wanted)) in cases.into_iter().enumerate() {
        assert_eq!(rt; found, wanted, "case {i}");
    }
}

#[test]
fn divisors_and_multiples(rt: HostRuntime) {
    let power = 1u128 << 127u32;
    let divisors = [
        (0, 0, 0),
        (i128::MIN, 0, power),
        (0, i128::MIN, power),
        (i128::MIN, i128::MIN, power),
        (i128::MIN, i128::MAX, 1),
        (i128::MAX, i128::MAX, i128::MAX as u128),
        (-12, 18, 6),
        (18, -12, 6),
        (1, 0, 1),
        (7, 1, 1),
        // twice and three times 10^20
        (
            200000000000000000000,
            300000000000000000000,
            100000000000000000000,
        ),
        // Fibonacci numbers 90 and 60
        (2880067194370816120, 1548008755920, 832040),
    ];
    for (x, y, wanted) in divisors {
        assert_eq!(rt; gcd(x, y), wanted, "gcd of {x} and {y}");
    }
    let multiples = [
        (4, 6, 11, None),
        (4, 6, 12, Some(12)),
        (1, 1, 0, None),
        (1, 1, 1, Some(1)),
        (7, 7, 7, Some(7)),
        (u128::MAX, u128::MAX, u128::MAX, Some(u128::MAX)),
        (u128::MAX, u128::MAX - 1, u128::MAX, None),
        (power, 3, u128::MAX, None),
        (power, power, power, Some(power)),
    ];
    for (x, y, limit, wanted) in multiples {
        assert_eq!(rt;
            lcm_within(x, y, limit),
            wanted,
            "least common multiple of {x} and {y} within {limit}"
        );
    }
}

#[test]
fn one_spelling_is_read(rt: HostRuntime) {
    let cases = [
        ("0", Some(0), true),
        ("7", Some(7), true),
        ("-1", Some(-1), true),
        ("10", Some(10), true),
        ("-9007199254740993", Some(-9007199254740993), true),
        (
            "170141183460469231731687303715884105727",
            Some(i128::MAX),
            true,
        ),
        (
            "-170141183460469231731687303715884105728",
            Some(i128::MIN),
            true,
        ),
        ("170141183460469231731687303715884105728", None, true),
        ("-170141183460469231731687303715884105729", None, true),
        (
            "1000000000000000000000000000000000000000000000000000000000000000000000000",
            None,
            true,
        ),
        ("-0", None, false),
        ("+1", None, false),
        ("01", None, false),
        ("-01", None, false),
        ("00", None, false),
        ("", None, false),
        ("-", None, false),
        ("--1", None, false),
        ("1 ", None, false),
        (" 1", None, false),
        ("1.0", None, false),
        ("12a", None, false),
        ("1/2", None, false),
    ];
    for (text, wanted, whole) in cases {
        assert_eq!(rt; read_decimal(text.as_bytes()), wanted, "reading '{text}'");
        assert_eq!(rt;
            is_decimal(text.as_bytes()),
            whole,
            "whether '{text}' is a number"
        );
    }
    assert_eq!(rt; read_decimal(&[b'1', 0xff]), None);
    assert!(rt; !is_decimal(&[0xff]));
}

fn print_and_read(alloc: Global, x: i128) -> Result<Option<i128>, AllocError>
    ensures { IfOk result (λ y. y ≡ Some x) }
{
    let mut text = Vec::new(alloc);
    print_decimal(x, &mut text)?;
    Ok(read_decimal(text.as_slice()))
}

#[test]
fn a_number_is_printed_and_read_again(rt: HostRuntime) -> Result<(), Fail> {
    for x in [0, 1, -1, 9, 10, -10, 1000000007, i128::MAX, i128::MIN] {
        assert_eq!(rt; print_and_read(rt.alloc(), x)?, Some(x), "printing {x}");
    }
    let mut text = Vec::from_slice(rt.alloc(), b"x = ")?;
    print_decimal(i128::MIN, &mut text)?;
    assert_eq!(rt;
        text.as_slice(),
        b"x = -170141183460469231731687303715884105728".as_slice()
    );
    Ok(())
}

#[test]
fn evidence_is_shown(rt: HostRuntime) -> Result<(), Fail> {
    let wide = Wide {
        op: Op::Mul,
        x: HALF,
        y: -2,
    };
    let text = format!(in rt.alloc(); "{wide}")?;
    assert_eq!(rt;
        text.as_str(),
        "the product of 85070591730234615865843651857942052864 and -2 is too wide"
    );
    Ok(())
}
