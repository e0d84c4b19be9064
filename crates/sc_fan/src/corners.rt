//! The line of a corner.

ghost use Rattle.std.specs.Prelude.{◌≡◌, ◌++◌, ℤ, true, false, Some, IfOk, IfErr, OnOk, OnErr};
ghost use Rattle.sc_line.specs.declared.fault.Kind.TheVariants as kinds;
ghost use Rattle.sc_line.specs.Lines.{ended, IsNarrowed};
ghost use Rattle.sc_line.specs.Printing.{AppendsPart};
ghost use Rattle.sc_fan.specs.Corners as lines;
ghost use Rattle.sc_fan.specs.Corners.{corner_said, is_direction, IsCornerInRange};

use crate::corner::Corner;
use crate::limits::{MAX_DIRECTION, MAX_VALUE};
use sc_cone::Direction;
use sc_line::{Fields, Kind, within};
use sc_text::{Field, fraction_of, print_line};
use std::alloc::AllocError;

// The direction of two numbers.
fn direction_of(s: Option<i128>, t: Option<i128>) -> Result<Direction, Kind>
    ensures ok { IfOk result (λ d. (s ≡ Some d.s) × (t ≡ Some d.t) × (is_direction d.s d.t ≡ true)) }
    ensures err { IfErr result (λ kind. (kind ≡ kinds.Range) × ((a b : ℤ) → IsNarrowed a s → IsNarrowed b t → is_direction a b ≡ false)) }
{
    let s = within(s, 0, MAX_DIRECTION)?;
    let t = within(t, -MAX_DIRECTION, MAX_DIRECTION)?;
    if s == 0 && t == 0 {
        return Err(Kind::Range);
    }
    Ok(Direction {
        s: s as i64,
        t: t as i64,
    })
}

/// The corner of a line `corner S T NUM/DEN`.
pub fn corner_line(line: &[u8]) -> Result<Corner, Kind>
    ensures ok { IfOk result (λ c. (line.now ≡ lines.corner_line (corner_said c)) × IsCornerInRange (corner_said c)) }
    ensures err { IfErr result (λ kind. lines.corner_fault line.now ≡ Some kind) }
{
    let mut fields = Fields::of(line);
    fields.name(b"corner")?;
    let s = fields.number()?;
    let t = fields.number()?;
    let Some(field) = fields.next() else {
        return Err(Kind::Form);
    };
    fields.end()?;
    let value = fraction_of(field, MAX_VALUE)?;
    let direction = direction_of(s, t)?;
    Ok(Corner { direction, value })
}

/// Appends the line of a corner.
pub fn print_corner_line(corner: &Corner, out: &mut Vec<u8>) -> Result<(), AllocError>
    ensures ok { OnOk result (out.new.items ≡ out.old.items ++ ended (lines.corner_line (corner_said corner.now))) }
    ensures err { OnErr result (AppendsPart out.old.items out.new.items (ended (lines.corner_line (corner_said corner.now)))) }
{
    let fields = [
        Field::Number(i128::from(corner.direction.s)),
        Field::Number(i128::from(corner.direction.t)),
        Field::Fraction(&corner.value),
    ];
    print_line(b"corner", &fields, out)
}
