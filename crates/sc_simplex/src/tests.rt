use super::*;
use std::alloc::{AllocError, Global};
use std::test::Fail;

// A column with one entry.
fn column(alloc: Global, key: &[u32], row: u32) -> Result<Column, AllocError> {
    let mut entries = Vec::new(alloc);
    entries.push((row, 1))?;
    Ok(Column {
        key: Vec::from_slice(alloc, key)?,
        entries,
    })
}

#[test]
fn equal_keys_have_one_place(rt: HostRuntime) -> Result<(), Fail> {
    let alloc = rt.alloc();
    let mut columns = Columns::empty(alloc);
    let pushes: [(&[u32], u32, usize); 4] = [
        (&[0, 1], 7, 0),
        (&[2], 8, 1),
        (&[0, 1], 9, 0),
        (&[], 5, 2),
    ];
    for (key, row, wanted) in pushes {
        let Ok(place) = columns.push(column(alloc, key, row)?) else {
            return Err(Fail::from("no memory"));
        };
        let found = columns.find(&Vec::from_slice(alloc, key)?);
        assert_eq!(rt;
            (place, found),
            (wanted, Some(wanted)),
            "the key with row {row}"
        );
    }
    assert_eq!(rt; columns.len(), 3);
    let missing = columns.find(&Vec::from_slice(alloc, &[1])?);
    assert_eq!(rt; missing, None);
    if columns.len() > 0 {
        let first = columns.at(0).entries.first().map(|entry| entry.0);
        assert_eq!(rt; first, Some(7), "the column that came first stays");
    }
    Ok(())
}
