//! The lines of sides.

ghost use Rattle.std.specs.Prelude.{◌≡◌, Some, IfOk, IfErr};
ghost use Rattle.sc_text.specs.Sides as spellings;
ghost use Rattle.sc_text.specs.Sides.{a_side};

use crate::limits::Limits;
use sc_line::{Fields, Kind, LineFault, LineItem, in_range};
use sc_theory::Side;
use std::alloc::Global;

/// The side of a line `side LABEL MATE NEXT`, within these limits.
pub fn side_line(line: &[u8], limits: &Limits) -> Result<Side, Kind>
    ensures ok { IfOk result (λ s. (line.now ≡ spellings.side_line s) × spellings.IsSideWithin limits.now s) }
    ensures err { IfErr result (λ kind. spellings.side_fault limits.now line.now ≡ Some kind) }
{
    let mut fields = Fields::of(line);
    fields.name(b"side")?;
    let label = fields.number()?;
    let mate = fields.number()?;
    let next = fields.number()?;
    fields.end()?;
    Ok(Side {
        label: in_range(label, 0, limits.label)?,
        mate: in_range(mate, 0, limits.side)?,
        next: in_range(next, 0, limits.side)?,
    })
}

/// The lines of sides within these limits.
#[derive(Drop)]
pub struct SideLines {
    pub limits: Limits,
}

impl LineItem for SideLines {
    type Context = ();

    type Value = Side;

    ghost kind = { λ k c before. a_side k.limits };

    fn read(
        &self,
        _alloc: Global,
        line: &[u8],
        _before: &[Side],
        _context: &(),
    ) -> Result<Side, LineFault> {
        Ok(side_line(line, &self.limits)?)
    }
}
