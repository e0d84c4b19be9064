//! Sinks of bytes, and writing a whole text to one.
ghost use Rattle.std.specs.Prelude.{◌≡◌, ℕ, ◌+◌, ◌<◌, ◌≤◌, Bool, IsTrue, Option, List, [], length, take, IfOk, OnOk, OnErr};
ghost use Rattle.sc_outside.specs.Faults.{Rose};
ghost use Rattle.sc_outside.specs.Told.{Took, TookPart};

use crate::faults::Failed;

/// A place that bytes are written to in pieces.
pub trait Sink {
    // The bytes that were taken, where the sink tells them. Once it doesn't, it never does again.
    ghost taken: { Self → Option (List ℕ) };

    // How many faults there were so far.
    ghost faults: { Self → ℕ };

    // Whether the counter of faults stands at its last value.
    ghost saturated: { Self → Bool };

    /// Takes the front of `bytes` and answers how many: at least one, unless `bytes` is empty. A
    /// call that fails takes nothing.
    fn write(&mut self, bytes: &[u8]) -> Result<usize, Failed>
        ensures fits { IfOk result (λ k. k ≤ length bytes.now) }
        ensures some { IfOk result (λ k. 0 < length bytes.now → 0 < k) }
        ensures appended { IfOk result (λ k. Took (taken self.old) (taken self.new)
            (take k bytes.now)) }
        ensures nothing { OnErr result (Took (taken self.old) (taken self.new) []) }
        ensures fault { OnErr result (Rose (faults self.old) (faults self.new) (saturated self.new)) }
        ensures never_falls { faults self.old ≤ faults self.new }
        ensures stays_saturated { IsTrue (saturated self.old) → IsTrue (saturated self.new) }
        ensures no_fault { OnOk result (faults self.new ≡ faults self.old) }
        ensures one_fault { faults self.new ≤ faults self.old + 1 };
}

/// Hands all of `bytes` to the sink. After a failure the sink has taken a prefix of them, not all,
/// and isn't asked again.
pub fn write_all<K: Sink>(sink: &mut K, bytes: &[u8]) -> Result<(), Failed>
    ensures all { OnOk result (Took (K.taken sink.old) (K.taken sink.new) bytes.now) }
    ensures part { OnErr result (TookPart (K.taken sink.old) (K.taken sink.new) bytes.now) }
    ensures fault { OnErr result (Rose (K.faults sink.old) (K.faults sink.new)
        (K.saturated sink.new)) }
    ensures never_falls { K.faults sink.old ≤ K.faults sink.new }
    ensures stays_saturated { IsTrue (K.saturated sink.old) → IsTrue (K.saturated sink.new) }
    ensures no_fault { OnOk result (K.faults sink.new ≡ K.faults sink.old) }
    ensures one_fault { K.faults sink.new ≤ K.faults sink.old + 1 }
{
    let mut written = 0;
    while written < bytes.len() {
        written += sink.write(&bytes[written..])?;
    }
    Ok(())
}
