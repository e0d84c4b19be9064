//! Sources and sinks over std's readers and writers.
ghost use Rattle.std.specs.Prelude.{◌≡◌, ◌+◌, ◌<◌, ◌≤◌, true, false, IsTrue, IsSome, None, [], length, OnOk, OnErr, IfOk, Ok, take, if◌then◌else◌};
ghost use Rattle.std.specs.Io.KnownBytes.{Appends, Consumes, IsAtEnd, Keeps};
ghost use Rattle.sc_outside.specs.Faults.{Rose, CountsFault, is_saturated};
ghost use Rattle.sc_outside.specs.Told.{Took};

use crate::faults::Failed;
use crate::sinks::Sink;
use crate::sources::Source;
use std::io::{Read, Write};

/// The bytes of a std reader. Each error of the reader is one fault.
#[derive(Drop)]
pub struct StdSource<R> {
    reader: R,
    faults: u64,
}

impl<R: Read> StdSource<R> {
    /// A source of what the reader has left, where the reader tells that.
    pub fn new(reader: R) -> StdSource<R>
        ensures bytes { ⟦<StdSource<R> as Source>⟧.left result ≡ R.remaining reader }
        ensures no_fault { ⟦<StdSource<R> as Source>⟧.faults result ≡ 0 }
        ensures reader { result.reader ≡ reader }
    {
        StdSource { reader, faults: 0 }
    }
}

impl<R: Read> Source for StdSource<R> {
    ghost left = { λ s. R.remaining s.reader };

    ghost faults = { λ s. s.faults };

    ghost saturated = { λ s. is_saturated s.faults };

    fn read(&mut self, room: &mut [u8]) -> Result<usize, Failed>
        ensures fits { IfOk result (λ k. k ≤ length room.old) }
        ensures next_bytes { let left = ⟦<StdSource<R> as Source>⟧.left in
            IfOk result (λ k. Consumes (left self.old) (left self.new) (take k room.new)) }
        ensures ended { let left = ⟦<StdSource<R> as Source>⟧.left in
            result ≡ Ok 0 → 0 < length room.old → IsAtEnd (left self.old) }
        // In the reader's own words.
        ensures handed { IfOk result (λ k. Consumes (R.remaining self.old.reader)
            (R.remaining self.new.reader) (take k room.new)) }
        ensures nothing { let left = ⟦<StdSource<R> as Source>⟧.left in
            OnErr result (Keeps (left self.old) (left self.new)) }
        ensures counts { let faults = ⟦<StdSource<R> as Source>⟧.faults in
            CountsFault result (faults self.old) (faults self.new) }
        ensures fault { let faults = ⟦<StdSource<R> as Source>⟧.faults in
            let saturated = ⟦<StdSource<R> as Source>⟧.saturated in
            OnErr result (Rose (faults self.old) (faults self.new) (saturated self.new)) }
        ensures never_falls { let faults = ⟦<StdSource<R> as Source>⟧.faults in
            faults self.old ≤ faults self.new }
        ensures stays_saturated { let saturated = ⟦<StdSource<R> as Source>⟧.saturated in
            IsTrue (saturated self.old) → IsTrue (saturated self.new) }
        ensures no_fault { let faults = ⟦<StdSource<R> as Source>⟧.faults in
            OnOk result (faults self.new ≡ faults self.old) }
        ensures one_fault { let faults = ⟦<StdSource<R> as Source>⟧.faults in
            faults self.new ≤ faults self.old + 1 }
    {
        match self.reader.read(room) {
            Ok(count) => Ok(count),
            Err(_) => {
                self.faults = self.faults.saturating_add(1);
                Err(Failed)
            }
        }
    }
}

/// A std writer to write to. Each error of the writer is one fault, and so is a call that takes
/// nothing of some bytes.
#[derive(Drop)]
pub struct StdSink<W: Write> {
    writer: W,
    faults: u64,
    // Only contracts read it: whether the sink passes on what the writer tells.
    tells: bool,
    ghost told: { IsTrue tells → IsSome (W.contents writer) },
}

impl<W: Write> StdSink<W> {
    /// A sink over any writer. It doesn't tell what it took, since a writer may begin to tell
    /// between two calls.
    pub fn new(writer: W) -> StdSink<W>
        ensures untold { ⟦<StdSink<W> as Sink>⟧.taken result ≡ None }
        ensures no_fault { ⟦<StdSink<W> as Sink>⟧.faults result ≡ 0 }
        ensures writer { result.writer ≡ writer }
    {
        StdSink {
            writer,
            faults: 0,
            tells: false,
        }
    }

    /// A sink over a writer that tells what it holds, as one in memory does: the sink passes it on.
    pub fn telling(writer: W) -> StdSink<W>
        requires { IsSome (W.contents writer) }
        ensures told { ⟦<StdSink<W> as Sink>⟧.taken result ≡ W.contents writer }
        ensures no_fault { ⟦<StdSink<W> as Sink>⟧.faults result ≡ 0 }
        ensures writer { result.writer ≡ writer }
    {
        StdSink {
            writer,
            faults: 0,
            tells: true,
        }
    }
}

impl<W: Write> Sink for StdSink<W> {
    ghost taken = { λ s. if s.tells then W.contents s.writer else None };

    ghost faults = { λ s. s.faults };

    ghost saturated = { λ s. is_saturated s.faults };

    fn write(&mut self, bytes: &[u8]) -> Result<usize, Failed>
        ensures fits { IfOk result (λ k. k ≤ length bytes.now) }
        ensures some { IfOk result (λ k. 0 < length bytes.now → 0 < k) }
        ensures appended { let taken = ⟦<StdSink<W> as Sink>⟧.taken in
            IfOk result (λ k. Took (taken self.old) (taken self.new) (take k bytes.now)) }
        ensures nothing { let taken = ⟦<StdSink<W> as Sink>⟧.taken in
            OnErr result (Took (taken self.old) (taken self.new) []) }
        // What the writer was handed, in its own words, also where the sink doesn't tell it.
        ensures handed { IfOk result (λ k. Appends (W.contents self.old.writer)
            (W.contents self.new.writer) (take k bytes.now)) }
        ensures goes_on_telling { let taken = ⟦<StdSink<W> as Sink>⟧.taken in
            IsSome (taken self.old) → IsSome (taken self.new) }
        ensures counts { let faults = ⟦<StdSink<W> as Sink>⟧.faults in
            CountsFault result (faults self.old) (faults self.new) }
        ensures fault { let faults = ⟦<StdSink<W> as Sink>⟧.faults in
            let saturated = ⟦<StdSink<W> as Sink>⟧.saturated in
            OnErr result (Rose (faults self.old) (faults self.new) (saturated self.new)) }
        ensures never_falls { let faults = ⟦<StdSink<W> as Sink>⟧.faults in
            faults self.old ≤ faults self.new }
        ensures stays_saturated { let saturated = ⟦<StdSink<W> as Sink>⟧.saturated in
            IsTrue (saturated self.old) → IsTrue (saturated self.new) }
        ensures no_fault { let faults = ⟦<StdSink<W> as Sink>⟧.faults in
            OnOk result (faults self.new ≡ faults self.old) }
        ensures one_fault { let faults = ⟦<StdSink<W> as Sink>⟧.faults in
            faults self.new ≤ faults self.old + 1 }
    {
        match self.writer.write(bytes) {
            Ok(count) if count > 0 || bytes.is_empty() => Ok(count),
            _ => {
                self.faults = self.faults.saturating_add(1);
                Err(Failed)
            }
        }
    }
}
