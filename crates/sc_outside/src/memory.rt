//! A source and a sink in memory whose calls fail as planned.
ghost use Rattle.std.specs.Prelude.{◌≡◌, ◌+◌, ◌<◌, ◌≤◌, false, IsTrue, ◌↔◌, ◌⊎◌, Some, [], ◌++◌, length, take, min, IfOk, OnOk, OnErr, IsErr, Contains};
ghost use Rattle.sc_outside.specs.Faults.{Rose, CountsFault, next_count, is_saturated};
ghost use Rattle.sc_outside.specs.Told.{Took};
ghost use Rattle.sc_outside.specs.Stores.{told_unless};

use crate::calm::{CalmSink, CalmSource};
use crate::faults::Failed;
use crate::sinks::Sink;
use crate::sources::Source;
use std::alloc::{AllocError, Global};
use std::marker::Model;

/// Bytes in memory, at most `piece` of which come in one call. Exactly the calls whose numbers,
/// from 0 on, were handed in fail, and take nothing.
#[derive(Drop)]
pub struct MemorySource {
    calm: CalmSource,
    fails: Vec<u64>,
    calls: u64,
    faults: u64,
}

impl Model for MemorySource {
    ghost use Rattle.sc_outside.specs.Stores.{FailingSupply};

    ghost Value = { FailingSupply };

    ghost view = { λ s. record { left = s.calm.left; given = s.calm.given; piece = s.calm.piece; fails = s.fails.items; calls = s.calls; faults = s.faults } };
}

impl MemorySource {
    /// A source of exactly these bytes. The numbers of calls stop at 2^64 - 1.
    pub fn new(bytes: Vec<u8>, piece: usize, fails: Vec<u64>) -> MemorySource
        requires { 0 < piece }
        ensures { result ≡ record {
          left = bytes.items;
          given = 0;
          piece = piece;
          fails = fails.items;
          calls = 0;
          faults = 0;
        } }
    {
        MemorySource {
            calm: CalmSource::new(bytes, piece),
            fails,
            calls: 0,
            faults: 0,
        }
    }
}

impl Source for MemorySource {
    ghost left = { λ s. Some s.left };

    ghost faults = { λ s. s.faults };

    ghost saturated = { λ s. is_saturated s.faults };

    ghost calls = { λ s. s.calls };

    ghost given = { λ s. s.given };

    fn read(&mut self, room: &mut [u8]) -> Result<usize, Failed>
        ensures fails { IsErr result ↔ Contains self.old.fails self.old.calls }
        ensures count { IfOk result (λ k. k ≡ min (length room.old)
            (min self.old.piece (length self.old.left))) }
        ensures next_bytes { IfOk result (λ k. self.old.left ≡ take k room.new ++ self.new.left) }
        ensures ended { result ≡ Ok 0 → 0 < length room.old → self.old.left ≡ [] }
        ensures nothing { OnErr result (self.new.left ≡ self.old.left) }
        ensures gave { IfOk result (λ k. self.new.given ≡ self.old.given + k) }
        ensures gave_nothing { OnErr result (self.new.given ≡ self.old.given) }
        ensures counts { CountsFault result self.old.faults self.new.faults }
        ensures fault { OnErr result (Rose self.old.faults self.new.faults
            (is_saturated self.new.faults)) }
        ensures never_falls { self.old.faults ≤ self.new.faults }
        ensures stays_saturated { IsTrue (is_saturated self.old.faults) →
            IsTrue (is_saturated self.new.faults) }
        ensures no_fault { OnOk result (self.new.faults ≡ self.old.faults) }
        ensures one_fault { self.new.faults ≤ self.old.faults + 1 }
        ensures next_call { self.new.calls ≡ next_count self.old.calls }
        ensures same_piece { self.new.piece ≡ self.old.piece }
        ensures same_fails { self.new.fails ≡ self.old.fails }
    {
        let number = self.calls;
        self.calls = number.saturating_add(1);
        if self.fails.contains(&number) {
            self.faults = self.faults.saturating_add(1);
            return Err(Failed);
        }
        self.calm.read(room)
    }
}

/// Keeps the first `room` bytes of what it takes, at most `piece` bytes a call. Exactly the calls
/// whose numbers, from 0 on, were handed in fail; with `piece` 0 every write of bytes does. What
/// comes past its room is dropped, and from then on it doesn't tell what it took.
#[derive(Drop)]
pub struct MemorySink {
    calm: CalmSink,
    piece: usize,
    fails: Vec<u64>,
    calls: u64,
    faults: u64,
}

impl Model for MemorySink {
    ghost use Rattle.sc_outside.specs.Stores.{FailingShelf};

    ghost Value = { FailingShelf };

    ghost view = { λ s. record { room = s.calm.room; kept = s.calm.kept; passed = s.calm.passed; piece = s.piece; fails = s.fails.items; calls = s.calls; faults = s.faults } };
}

impl MemorySink {
    /// An empty sink. Memory for `room` bytes is taken here, and no more of it later. The numbers
    /// of calls stop at 2^64 - 1.
    pub fn new(
        alloc: Global,
        room: usize,
        piece: usize,
        fails: Vec<u64>,
    ) -> Result<MemorySink, AllocError>
        ensures { IfOk result (λ s. s ≡ record {
          room = room;
          kept = [];
          passed = false;
          piece = piece;
          fails = fails.items;
          calls = 0;
          faults = 0;
        }) }
    {
        let calm = CalmSink::new(alloc, room)?;
        Ok(MemorySink {
            calm,
            piece,
            fails,
            calls: 0,
            faults: 0,
        })
    }

    /// The first `room` bytes of what was taken.
    pub fn taken(&self) -> &[u8]
        ensures kept { result.now ≡ self.now.kept }
        ensures within { length result.now ≤ self.now.room }
    {
        self.calm.taken()
    }
}

impl Sink for MemorySink {
    ghost taken = { λ s. told_unless s.passed s.kept };

    ghost faults = { λ s. s.faults };

    ghost saturated = { λ s. is_saturated s.faults };

    fn write(&mut self, bytes: &[u8]) -> Result<usize, Failed>
        ensures fails { IsErr result ↔ (Contains self.old.fails self.old.calls ⊎
            ((self.old.piece ≡ 0) × (0 < length bytes.now))) }
        ensures count { IfOk result (λ k. k ≡ min self.old.piece (length bytes.now)) }
        ensures some { IfOk result (λ k. 0 < length bytes.now → 0 < k) }
        ensures kept { IfOk result (λ k. self.new.kept ≡ take self.old.room
            (self.old.kept ++ take k bytes.now)) }
        ensures passed { IfOk result (λ k. IsTrue self.new.passed ↔
            (IsTrue self.old.passed ⊎ (self.old.room < length self.old.kept + k))) }
        ensures appended { IfOk result (λ k. Took (told_unless self.old.passed self.old.kept)
            (told_unless self.new.passed self.new.kept) (take k bytes.now)) }
        ensures nothing { OnErr result ((self.new.kept ≡ self.old.kept) ×
            (self.new.passed ≡ self.old.passed)) }
        ensures counts { CountsFault result self.old.faults self.new.faults }
        ensures fault { OnErr result (Rose self.old.faults self.new.faults
            (is_saturated self.new.faults)) }
        ensures never_falls { self.old.faults ≤ self.new.faults }
        ensures stays_saturated { IsTrue (is_saturated self.old.faults) →
            IsTrue (is_saturated self.new.faults) }
        ensures no_fault { OnOk result (self.new.faults ≡ self.old.faults) }
        ensures one_fault { self.new.faults ≤ self.old.faults + 1 }
        ensures next_call { self.new.calls ≡ next_count self.old.calls }
        ensures same_room { self.new.room ≡ self.old.room }
        ensures same_piece { self.new.piece ≡ self.old.piece }
        ensures same_fails { self.new.fails ≡ self.old.fails }
    {
        let number = self.calls;
        self.calls = number.saturating_add(1);
        let count = self.piece.min(bytes.len());
        if self.fails.contains(&number) || (self.piece == 0 && bytes.len() > 0) {
            self.faults = self.faults.saturating_add(1);
            return Err(Failed);
        }
        self.calm.write(&bytes[..count])
    }
}
