//! A source and a sink in memory that never fail.
ghost use Rattle.std.specs.Prelude.{◌≡◌, ◌+◌, ◌-◌, ◌<◌, ◌≤◌, false, IsTrue, ◌↔◌, ◌⊎◌, Some, [], ◌++◌, length, take, drop, min, vec_len, IfOk, if◌then◌else◌};
ghost use Rattle.sc_outside.specs.Told.{Took};
ghost use Rattle.sc_outside.specs.Stores.{Supply, Shelf, told_unless};

use crate::faults::Failed;
use crate::sinks::Sink;
use crate::sources::Source;
use std::alloc::{AllocError, Global};
use std::marker::Model;

/// Calls on calm objects are never faults: their count is 0, and no last value.
pub fn calm_counts_are_zero()
    ensures source_count { (s : Supply) → ⟦<CalmSource as Source>⟧.faults s ≡ 0 }
    ensures source_not_last { (s : Supply) → ⟦<CalmSource as Source>⟧.saturated s ≡ false }
    ensures sink_count { (s : Shelf) → ⟦<CalmSink as Sink>⟧.faults s ≡ 0 }
    ensures sink_not_last { (s : Shelf) → ⟦<CalmSink as Sink>⟧.saturated s ≡ false }
{}

/// Bytes in memory, at most `piece` of which come in one call. It never fails.
#[derive(Drop)]
pub struct CalmSource {
    bytes: Vec<u8>,
    given: usize,
    piece: usize,
}

impl Model for CalmSource {
    ghost use Rattle.std.specs.Prelude.{◌≤◌, ◌<◌, drop, vec_len};
    ghost use Rattle.sc_outside.specs.Stores.{Supply};

    ghost Value = { Supply };

    ghost view = { λ s. record { left = drop s.given s.bytes.items; given = s.given; piece = s.piece } };

    ghost invariant = { λ s. (s.given ≤ vec_len s.bytes) × (0 < s.piece) };
}

impl CalmSource {
    /// A source of exactly these bytes.
    pub fn new(bytes: Vec<u8>, piece: usize) -> CalmSource
        requires { 0 < piece }
        ensures { result ≡ record { left = bytes.items; given = 0; piece = piece } }
    {
        CalmSource {
            bytes,
            given: 0,
            piece,
        }
    }
}

impl Source for CalmSource {
    ghost left = { λ s. Some s.left };

    ghost faults = { λ _. 0 };

    ghost saturated = { λ _. false };

    ghost given = { λ s. s.given };

    fn read(&mut self, room: &mut [u8]) -> Result<usize, Failed>
        ensures count { result ≡ Ok (min (length room.old)
            (min self.old.piece (length self.old.left))) }
        ensures next_bytes { IfOk result (λ k. self.old.left ≡ take k room.new ++ self.new.left) }
        ensures ended { result ≡ Ok 0 → 0 < length room.old → self.old.left ≡ [] }
        ensures gave { IfOk result (λ k. self.new.given ≡ self.old.given + k) }
        ensures same_piece { self.new.piece ≡ self.old.piece }
    {
        let left = &self.bytes[self.given..];
        let count = room.len().min(self.piece.min(left.len()));
        room[..count].copy_from_slice(&left[..count]);
        self.given += count;
        Ok(count)
    }
}

/// Keeps the first `room` bytes of what it takes. It takes all that it is handed and never fails.
/// What comes past its room is dropped, and from then on it doesn't tell what it took.
#[derive(Drop)]
pub struct CalmSink {
    bytes: Vec<u8>,
    room: usize,
    passed: bool,
}

impl Model for CalmSink {
    ghost use Rattle.std.specs.Prelude.{◌≡◌, ◌≤◌, IsTrue, vec_len, vec_capacity};
    ghost use Rattle.sc_outside.specs.Stores.{Shelf};

    ghost Value = { Shelf };

    ghost view = { λ s. record { room = s.room; kept = s.bytes.items; passed = s.passed } };

    ghost invariant = { λ s. (s.room ≤ vec_capacity s.bytes) × (vec_len s.bytes ≤ s.room) × (IsTrue s.passed → vec_len s.bytes ≡ s.room) };
}

impl CalmSink {
    /// An empty sink. Memory for `room` bytes is taken here, and no more of it later.
    pub fn new(alloc: Global, room: usize) -> Result<CalmSink, AllocError>
        ensures { IfOk result (λ s. s ≡ record { room = room; kept = []; passed = false }) }
    {
        let bytes = Vec::with_capacity(alloc, room)?;
        Ok(CalmSink {
            bytes,
            room,
            passed: false,
        })
    }

    /// The first `room` bytes of what was taken.
    pub fn taken(&self) -> &[u8]
        ensures kept { result.now ≡ self.now.kept }
        ensures within { length result.now ≤ self.now.room }
    {
        self.bytes.as_slice()
    }
}

impl Sink for CalmSink {
    ghost taken = { λ s. told_unless s.passed s.kept };

    ghost faults = { λ _. 0 };

    ghost saturated = { λ _. false };

    fn write(&mut self, bytes: &[u8]) -> Result<usize, Failed>
        ensures count { result ≡ Ok (length bytes.now) }
        ensures kept { self.new.kept ≡ take self.old.room (self.old.kept ++ bytes.now) }
        ensures passed { IsTrue self.new.passed ↔
            (IsTrue self.old.passed ⊎ (self.old.room < length self.old.kept + length bytes.now)) }
        ensures appended { Took (told_unless self.old.passed self.old.kept)
            (told_unless self.new.passed self.new.kept) bytes.now }
        ensures same_room { self.new.room ≡ self.old.room }
    {
        let free = self.room - self.bytes.len();
        let count = bytes.len().min(free);
        self.bytes.extend_from_slice(&bytes[..count]).unwrap();
        self.passed = self.passed || bytes.len() > free;
        Ok(bytes.len())
    }
}
