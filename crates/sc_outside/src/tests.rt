//! Reading and writing over sources and sinks in memory and over std's.

use crate::{
    CalmSink, CalmSource, MemorySink, MemorySource, ReadAll, StdSink, StdSource, read_all,
    write_all,
};
use std::alloc::{AllocError, Global};
use std::test::Fail;

const TEXT: &[u8] = b"surface 4\nwords 1\n";

/// What reading `abcdef` answers over a source in memory.
fn read_letters(alloc: Global, piece: u8, fails: &[u64], limit: u16) -> Result<Vec<u8>, ReadAll> {
    let bytes = b"abcdef".to_vec(alloc)?;
    let piece = usize::from(piece).max(1);
    let mut source = MemorySource::new(bytes, piece, fails.to_vec(alloc)?);
    read_all(alloc, &mut source, usize::from(limit))
}

/// Whether writing TEXT twice went well over a sink in memory, and what the sink took.
fn write_twice(
    alloc: Global,
    room: u8,
    piece: u8,
    fails: &[u64],
) -> Result<(bool, Vec<u8>), AllocError> {
    let mut sink = MemorySink::new(
        alloc,
        usize::from(room),
        usize::from(piece),
        fails.to_vec(alloc)?,
    )?;
    let well = write_all(&mut sink, TEXT).is_ok() && write_all(&mut sink, TEXT).is_ok();
    Ok((well, sink.taken().to_vec(alloc)?))
}

#[test]
fn reads_to_the_end_or_says_why_not(rt: HostRuntime) {
    let never: [u64; 0] = [];
    let cases = [
        (1, never.as_slice(), 6, None),
        (4, never.as_slice(), 6, None),
        (100, never.as_slice(), 60_000, None),
        (1, never.as_slice(), 5, Some(ReadAll::Long)),
        (100, never.as_slice(), 5, Some(ReadAll::Long)),
        (100, never.as_slice(), 0, Some(ReadAll::Long)),
        (2, [0].as_slice(), 6, Some(ReadAll::ReadFault)),
        (2, [3].as_slice(), 6, Some(ReadAll::ReadFault)),
        (2, [4].as_slice(), 6, None),
        (2, [3].as_slice(), 5, Some(ReadAll::Long)),
    ];
    for (piece, fails, limit, want) in cases {
        match read_letters(rt.alloc(), piece, fails, limit) {
            Ok(read) => {
                assert!(rt; want.is_none(), "{piece} {limit}");
                assert_eq!(rt; read.as_slice(), b"abcdef".as_slice(), "{piece} {limit}");
            }
            Err(error) => assert_eq!(rt; Some(error), want, "{piece} {limit}"),
        }
    }
}

#[test]
fn goes_on_after_a_long_input(rt: HostRuntime) -> Result<(), Fail> {
    let mut source = CalmSource::new(b"abcdefg".to_vec(rt.alloc())?, 3);
    for (limit, want) in [(4u16, 0), (9, 2), (0, 0)] {
        let read = read_all(rt.alloc(), &mut source, usize::from(limit));
        assert_eq!(rt; read.map_or(0, |v| v.len()), want, "{limit}");
    }
    Ok(())
}

#[test]
fn goes_on_after_a_fault(rt: HostRuntime) -> Result<(), Fail> {
    let fails = [1].to_vec(rt.alloc())?;
    let mut source = MemorySource::new(b"abcd".to_vec(rt.alloc())?, 2, fails);
    for want in [None, Some(2), Some(0)] {
        let read = read_all(rt.alloc(), &mut source, 9);
        assert_eq!(rt; read.ok().map(|v| v.len()), want);
    }
    Ok(())
}

#[test]
fn reads_over_many_chunks(rt: HostRuntime) -> Result<(), Fail> {
    let bytes = vec![in rt.alloc(); 7u8; 200_000]?;
    let mut source = CalmSource::new(bytes, 65_000);
    assert_eq!(rt; read_all(rt.alloc(), &mut source, 200_000)?.len(), 200_000);
    Ok(())
}

#[test]
fn writes_all_or_a_prefix(rt: HostRuntime) -> Result<(), Fail> {
    let twice = b"surface 4\nwords 1\nsurface 4\nwords 1\n".as_slice();
    let never: [u64; 0] = [];
    let cases = [
        (36, 100, never.as_slice(), true, twice),
        (100, 1, never.as_slice(), true, twice),
        (36, 10, [1].as_slice(), false, b"surface 4\n".as_slice()),
        (36, 10, [4].as_slice(), true, twice),
        (36, 10, [0].as_slice(), false, b"".as_slice()),
        (36, 0, never.as_slice(), false, b"".as_slice()),
        (18, 5, never.as_slice(), true, TEXT),
        (4, 5, never.as_slice(), true, b"surf".as_slice()),
        (0, 5, never.as_slice(), true, b"".as_slice()),
    ];
    for (room, piece, fails, want, kept) in cases {
        let (well, taken) = write_twice(rt.alloc(), room, piece, fails)?;
        assert_eq!(rt; well, want, "{room} {piece}");
        assert_eq!(rt; taken.as_slice(), kept, "{room} {piece}");
    }
    Ok(())
}

#[test]
fn drops_what_comes_past_the_room(rt: HostRuntime) -> Result<(), Fail> {
    for (room, kept) in [
        (18u8, TEXT),
        (17, b"surface 4\nwords 1"),
        (4, b"surf"),
        (0, b""),
    ] {
        let mut sink = CalmSink::new(rt.alloc(), usize::from(room))?;
        assert!(rt; write_all(&mut sink, TEXT).is_ok());
        assert!(rt; write_all(&mut sink, TEXT).is_ok());
        assert_eq!(rt; sink.taken(), kept, "{room}");
    }
    Ok(())
}

#[test]
fn passes_on_what_std_reads_and_writes(rt: HostRuntime) -> Result<(), Fail> {
    let mut source = StdSource::new(TEXT);
    assert_eq!(rt; read_all(rt.alloc(), &mut source, 18)?.as_slice(), TEXT);

    let mut text = Vec::new(rt.alloc());
    for number in 0..200u8 {
        text.push(number)?;
        text.push(b'\n')?;
    }
    let mut held = Vec::new(rt.alloc());
    assert!(rt; write_all(&mut StdSink::new(&mut held), text.as_slice()).is_ok());
    assert_eq!(rt; held.as_slice(), text.as_slice());
    assert!(rt; write_all(&mut StdSink::telling(&mut held), TEXT).is_ok());
    assert_eq!(rt; held.len(), 418);
    Ok(())
}
