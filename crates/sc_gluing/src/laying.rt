//! Cycles of positions laid one behind another.

ghost use Rattle.std.specs.Prelude.{◌≡◌, ◌+◌, ◌*◌, ◌<◌, ◌^◌, [], length, OnOk, vec_len};
ghost use Rattle.sc_gluing.specs.Cycles.{round as place_round};
ghost use Rattle.sc_gluing.specs.Laying.{AreLaid, LaysBehind};

use std::alloc::{AllocError, Global};

/// The sides along cycles of positions: the label of each, and the side that follows it round its cycle.
#[derive(Debug, Drop)]
pub struct Laid {
    pub labels: Vec<u32>,
    pub afters: Vec<u32>,
}

/// The place after a place round a cycle.
fn round(place: usize, len: usize) -> usize
    requires { place < len }
    ensures place { result ≡ place_round len place }
    ensures in_range { result < len }
{
    if place + 1 == len { 0 } else { place + 1 }
}

impl Laid {
    /// No sides.
    pub fn new(alloc: Global) -> Self
        ensures { AreLaid [] result.labels.items result.afters.items }
    {
        Laid {
            labels: Vec::new(alloc),
            afters: Vec::new(alloc),
        }
    }

    /// Lays a cycle behind those that lie there.
    fn lay(&mut self, walk: &[u32]) -> Result<(), AllocError>
        requires { vec_len self.old.labels + length walk.now < 2 ^ 32 }
        ensures laid { OnOk result (LaysBehind 1 walk.now self.old.labels.items self.old.afters.items self.new.labels.items self.new.afters.items) }
        ensures len { OnOk result (vec_len self.new.labels ≡ vec_len self.old.labels + length walk.now) }
    {
        let first = self.labels.len();
        for (place, label) in walk.iter().enumerate() {
            self.labels.push(*label)?;
            self.afters.push((first + round(place, walk.len())) as u32)?;
        }
        Ok(())
    }

    /// Lays copies of a cycle behind the cycles that lie there.
    pub fn lay_copies(&mut self, walk: &[u32], count: u32) -> Result<(), AllocError>
        requires { vec_len self.old.labels + count * length walk.now < 2 ^ 32 }
        ensures laid { OnOk result (LaysBehind count walk.now self.old.labels.items self.old.afters.items self.new.labels.items self.new.afters.items) }
        ensures len { OnOk result (vec_len self.new.labels ≡ vec_len self.old.labels + count * length walk.now) }
    {
        for _copy in 0..count {
            self.lay(walk)?;
        }
        Ok(())
    }
}
