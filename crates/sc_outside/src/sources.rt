//! Sources of bytes, and reading one to its end.
ghost use Rattle.std.specs.Prelude.{◌≡◌, ℕ, ◌+◌, ◌^◌, ◌<◌, ◌≤◌, Bool, IsTrue, Option, Some, List, [], length, take, vec_len, IfSome, IfOk, OnOk, OnErr, IsOk, IsErr};
ghost use Rattle.std.specs.Io.KnownBytes.{Consumes, IsAtEnd};
ghost use Rattle.sc_outside.specs.Faults.{Rose};
ghost use Rattle.sc_outside.specs.Told.{Delivered};

use crate::faults::Failed;
use std::alloc::{AllocError, Global};

/// How many bytes are asked for at most in one call.
const CHUNK: usize = 65_536;

/// Bytes that come in pieces, from a caller or from the system.
pub trait Source {
    // The bytes that are left, where the source tells them.
    ghost left: { Self → Option (List ℕ) };

    // How many faults there were so far.
    ghost faults: { Self → ℕ };

    // Whether the counter of faults stands at its last value.
    ghost saturated: { Self → Bool };

    // How many calls there were so far, where the source counts them.
    ghost calls: { Self → ℕ } = { λ _. 0 };

    // How many bytes the calls that went well gave so far, where the source counts them.
    ghost given: { Self → ℕ } = { λ _. 0 };

    /// Fills the front of `room` with the next bytes and answers how many. No byte for room that
    /// isn't empty says that the input has ended.
    fn read(&mut self, room: &mut [u8]) -> Result<usize, Failed>
        ensures fits { IfOk result (λ k. k ≤ length room.old) }
        ensures next_bytes { IfOk result (λ k. Consumes (left self.old) (left self.new)
            (take k room.new)) }
        ensures ended { result ≡ Ok 0 → 0 < length room.old → IsAtEnd (left self.old) }
        ensures fault { OnErr result (Rose (faults self.old) (faults self.new) (saturated self.new)) }
        ensures never_falls { faults self.old ≤ faults self.new }
        ensures stays_saturated { IsTrue (saturated self.old) → IsTrue (saturated self.new) }
        ensures no_fault { OnOk result (faults self.new ≡ faults self.old) }
        ensures one_fault { faults self.new ≤ faults self.old + 1 }
        ensures one_call { calls self.new ≤ calls self.old + 1 }
        ensures gave { IfOk result (λ k. given self.new ≤ given self.old + k) }
        ensures gave_nothing { OnErr result (given self.new ≤ given self.old) };
}

/// Why not all bytes of a source were answered.
#[derive(Debug, Clone, Copy, PartialEq, Eq)]
pub enum ReadAll {
    /// There are more bytes than the limit allows.
    Long,
    /// The source failed.
    ReadFault,
    /// There is no memory for the bytes.
    Memory,
}

impl From<AllocError> for ReadAll {
    ghost use Rattle.sc_outside.specs.declared.sources.ReadAll.TheVariants.{Memory};

    ghost from_gives = { λ _ e. e ≡ Memory };

    fn from(_error: AllocError) -> ReadAll {
        ReadAll::Memory
    }
}

impl From<Failed> for ReadAll {
    ghost use Rattle.sc_outside.specs.declared.sources.ReadAll.TheVariants.{ReadFault};

    ghost from_gives = { λ _ e. e ≡ ReadFault };

    fn from(_fault: Failed) -> ReadAll {
        ReadAll::ReadFault
    }
}

/// All bytes up to the end of the input, where they are at most `limit`. Makes at most `limit + 1`
/// calls, and asks no more once the input has ended, failed or passed the limit. Which bytes a source delivers in a
/// call that fails is its own affair, so nothing is said of the bytes left after `ReadFault`.
pub fn read_all<S: Source>(alloc: Global, source: &mut S, limit: usize) -> Result<Vec<u8>, ReadAll>
    requires { limit < 2 ^ 31 }
    ensures whole { IfOk result (λ v. IfSome (S.left source.old) (λ input. v.items ≡ input)) }
    ensures ended { OnOk result (IfSome (S.left source.old) (λ _. S.left source.new ≡ Some [])) }
    ensures within { IfOk result (λ v. vec_len v ≤ limit) }

    // Long exactly where limit + 1 bytes were delivered.
    ensures long { result ≡ Err ReadAll.Long →
        Delivered (S.left source.old) (S.left source.new) (limit + 1) }
    ensures long_only_over { result ≡ Err ReadAll.Long →
        IfSome (S.left source.old) (λ input. limit < length input) }
    ensures over { IfSome (S.left source.old) (λ input. limit < length input → IsErr result) }
    ensures memory { result ≡ Err ReadAll.Memory →
        (n : ℕ) × (n ≤ limit) × Delivered (S.left source.old) (S.left source.new) n }

    ensures fault { result ≡ Err ReadAll.ReadFault →
        Rose (S.faults source.old) (S.faults source.new) (S.saturated source.new) }
    ensures never_falls { S.faults source.old ≤ S.faults source.new }
    ensures stays_saturated { IsTrue (S.saturated source.old) → IsTrue (S.saturated source.new) }
    ensures no_fault { IsOk result → S.faults source.new ≡ S.faults source.old }
    ensures one_fault { S.faults source.new ≤ S.faults source.old + 1 }

    // A fault that comes after more bytes than the limit isn't looked at.
    ensures fault_within { result ≡ Err ReadAll.ReadFault →
        S.given source.new ≤ S.given source.old + limit }

    // Each turn brings a byte, but the last.
    ensures byte_a_turn { IfOk result
        (λ v. S.calls source.new ≤ S.calls source.old + vec_len v + 1) }
    ensures turns { S.calls source.new ≤ S.calls source.old + limit + 1 }
{
    let mut chunk = vec![in alloc; 0u8; CHUNK.min(limit + 1)]?;
    let room = chunk.as_mut_slice();
    let mut bytes = Vec::new(alloc);
    for _turn in 0..limit + 1 {
        let most = room.len().min(limit + 1 - bytes.len());
        let count = source.read(&mut room[..most])?;
        if count == 0 {
            return Ok(bytes);
        }
        if count > limit - bytes.len() {
            return Err(ReadAll::Long);
        }
        bytes.extend_from_slice(&room[..count])?;
    }
    // Each turn that goes on brings a byte within the limit, so limit + 1 turns never all go on.
    unreachable!()
}
