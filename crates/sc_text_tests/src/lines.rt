//! Lines of values, price lists and distance tables: what they tell, what is wrong with others, and their bytes.

use sc_chain::Kind;
use sc_fraction::Frac;
use sc_text::{
    LineFault, base_line, from_line, pair_line, print_base_line, print_from_line, print_pair_line,
    print_scale_line, print_value_line, scale_line, value_line,
};
use std::test::Fail;

const SCALES: [(&[u8], Result<i128, Kind>); 8] = [
    (b"scale 1", Ok(1)),
    (
        b"scale 1237940039285380274899124223",
        Ok(1_237_940_039_285_380_274_899_124_223),
    ),
    (b"scale 1237940039285380274899124224", Err(Kind::Range)),
    (b"scale 0", Err(Kind::Range)),
    (b"scale -1", Err(Kind::Range)),
    (b"scale 01", Err(Kind::Form)),
    (b"scale  1", Err(Kind::Form)),
    (b"scale 1 1", Err(Kind::Form)),
];

const BASES: [(&[u8], Result<i128, Kind>); 5] = [
    (b"base -3", Ok(-3)),
    (
        b"base 1237940039285380274899124223",
        Ok(1_237_940_039_285_380_274_899_124_223),
    ),
    (
        b"base -1237940039285380274899124223",
        Ok(-1_237_940_039_285_380_274_899_124_223),
    ),
    (b"base 1237940039285380274899124224", Err(Kind::Range)),
    (b"base -1237940039285380274899124224", Err(Kind::Range)),
];

const PAIRS: [(&[u8], Result<i128, Kind>); 10] = [
    (b"pair 0 2 -5", Ok(-5)),
    (
        b"pair 0 2 1237940039285380274899124223",
        Ok(1_237_940_039_285_380_274_899_124_223),
    ),
    (
        b"pair 0 2 -1237940039285380274899124223",
        Ok(-1_237_940_039_285_380_274_899_124_223),
    ),
    (b"pair 0 2 1237940039285380274899124224", Err(Kind::Range)),
    (b"pair 0 2 -1237940039285380274899124224", Err(Kind::Range)),
    (b"pair 0 2 -0", Err(Kind::Form)),
    (b"pair 0 3 -5", Err(Kind::Form)),
    (b"pair 2 0 -5", Err(Kind::Form)),
    (b"pair 00 2 -5", Err(Kind::Form)),
    (b"pair 0 2", Err(Kind::Form)),
];

#[test]
fn prices_are_read(rt: HostRuntime) {
    for (line, scale) in SCALES {
        assert_eq!(rt; scale_line(line), scale);
    }
    for (line, price) in BASES {
        assert_eq!(rt; base_line(line), price);
    }
    for (line, price) in PAIRS {
        assert_eq!(rt; pair_line(line, 0, 2), price);
    }
}

const VALUES: [(&[u8], Result<(i128, i128), Kind>); 14] = [
    (b"value 1/2", Ok((1, 2))),
    (b"value 0/1", Ok((0, 1))),
    (b"value 2097152/1", Ok((2_097_152, 1))),
    (b"value 2097153/1", Err(Kind::Range)),
    (b"value 1/2097152", Ok((1, 2_097_152))),
    (b"value 1/2097153", Err(Kind::Range)),
    (b"value 2/4", Err(Kind::Range)),
    (b"value 0/2", Err(Kind::Range)),
    (b"value 1/0", Err(Kind::Range)),
    (b"value -1/2", Err(Kind::Range)),
    (b"value 1", Err(Kind::Form)),
    (b"value 1/2/3", Err(Kind::Form)),
    (b"value 01/2", Err(Kind::Form)),
    (b"value 9/x", Err(Kind::Form)),
];

/// The numbers of the fraction in a line.
fn numbers_of(line: &[u8]) -> Result<(i128, i128), Kind> {
    let value = value_line(line)?;
    Ok((value.num(), value.den()))
}

#[test]
fn values_are_read(rt: HostRuntime) {
    for (line, numbers) in VALUES {
        assert_eq!(rt; numbers_of(line), numbers);
    }
}

const OTHER_TABLES: [(&[u8], Kind); 8] = [
    (b"from 2 6 0 -4 1", Kind::Form),
    (b"from 1 6 0 -4", Kind::Form),
    (b"from 1 6 0 -4 1 1", Kind::Form),
    (b"from 1 6 0 -4 --", Kind::Form),
    (b"from 1 6  -4 1", Kind::Form),
    (b"from 1 1267650600228229401496703205376 0 0 0", Kind::Range),
    (b"from 1 1267650600228229401496703205376 0 0 x", Kind::Form),
    (
        b"from 1 0 -1267650600228229401496703205376 0 0",
        Kind::Range,
    ),
];

#[test]
fn tables_are_read(rt: HostRuntime) -> Result<(), Fail> {
    let table = from_line(rt.alloc(), b"from 1 6 - -4 1", 1, 4).expect(&rt, "a table");
    assert_eq!(rt;
        table.as_slice(),
        [Some(6), None, Some(-4), Some(1)].as_slice()
    );
    let line = b"from 1 1267650600228229401496703205375 -1267650600228229401496703205375";
    let table = from_line(rt.alloc(), line, 1, 2).expect(&rt, "a table");
    let greatest = 1_267_650_600_228_229_401_496_703_205_375;
    assert_eq!(rt;
        table.as_slice(),
        [Some(greatest), Some(-greatest)].as_slice()
    );
    for (line, kind) in OTHER_TABLES {
        let fault = from_line(rt.alloc(), line, 1, 4).err();
        assert_eq!(rt; fault, Some(LineFault::Malformed(kind)));
    }
    Ok(())
}

#[test]
fn lines_are_printed(rt: HostRuntime) -> Result<(), Fail> {
    let mut out = Vec::new(rt.alloc());
    let half = Frac::new(2, 4).expect(&rt, "a half");
    print_value_line(&half, &mut out)?;
    print_scale_line(1, &mut out)?;
    print_base_line(-3, &mut out)?;
    print_pair_line(0, 2, -5, &mut out)?;
    print_from_line(1, &[Some(6), None, Some(-4), Some(1)], &mut out)?;
    assert_eq!(rt;
        out.as_slice(),
        b"value 1/2\nscale 1\nbase -3\npair 0 2 -5\nfrom 1 6 - -4 1\n".as_slice()
    );
    Ok(())
}
