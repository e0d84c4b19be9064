//! The line of a pivot.

ghost use Rattle.std.specs.Prelude.{◌≡◌, ◌<◌, ◌≤◌, ◌^◌, false, ℤ, pos, map, length, Some, IfOk, IfErr};
ghost use Rattle.sc_whole.specs.Spelling.{spelling};
ghost use Rattle.sc_theory.specs.Chains.{Chain as AnyChain, positions};
ghost use Rattle.sc_theory.specs.Prices.{pairs as pairs_of};
ghost use Rattle.sc_chain.specs.declared.limits.TheConstants.{MAX_POSITIONS};
ghost use Rattle.sc_line.specs.declared.fault.Kind.TheVariants as kinds;
ghost use Rattle.sc_line.specs.LineFaults.{IsFault};
ghost use Rattle.sc_line.specs.Lines.{IsNarrowed};
ghost use Rattle.sc_certificate.specs.PivotLines as lines;
ghost use Rattle.sc_certificate.specs.inside.PivotLines as inside;

use crate::head::Head;
use sc_chain::limits::MAX_POSITIONS;
use sc_chain::{Chain, Pairs, Pivot, Polygon};
use sc_line::{Fields, Kind, LineFault, LineItem, in_range, number_of};
use std::alloc::Global;

// The position that a field is.
fn position(field: &[u8]) -> Result<u32, Kind>
    ensures ok { IfOk result (λ n. field.now ≡ spelling (pos n)) }
    ensures err { IfErr result (λ kind. (kind ≡ kinds.Form) × inside.IsNoPosition field.now) }
{
    match in_range(number_of(field)?, 0, MAX_POSITIONS as u32) {
        Ok(position) => Ok(position),
        Err(_) => Err(Kind::Form),
    }
}

// The positions that fields are, of which a chain has at most so many. No more fields are looked at.
fn walk_of(alloc: Global, mut fields: Fields) -> Result<Vec<u32>, LineFault>
    ensures ok { IfOk result (λ walk. fields.entry ≡ map (λ i. spelling (pos i)) walk.items) }
    ensures few { IfOk result (λ walk. length walk.items ≤ MAX_POSITIONS) }
    ensures err { (c : AnyChain) → positions c ≤ MAX_POSITIONS → IfErr result (IsFault (inside.walk_fault c fields.entry)) }
{
    let mut walk = Vec::new(alloc);
    while let Some(field) = fields.next() {
        if walk.len() == MAX_POSITIONS {
            return Err(LineFault::Malformed(Kind::Form));
        }
        walk.push(position(field)?)?;
    }
    Ok(walk)
}

// The number of a row, where there are so many.
fn row_of(number: Option<i128>, row_count: usize) -> Result<u32, Kind>
    requires { row_count < 2 ^ 32 }
    ensures ok { IfOk result (λ n. (number ≡ Some (pos n)) × (n < row_count)) }
    ensures err { IfErr result (λ kind. (kind ≡ kinds.Range) × ((z : ℤ) → IsNarrowed z number → lines.is_below row_count z ≡ false)) }
{
    match number {
        Some(number) if number >= 0 && number < row_count as i128 => Ok(number as u32),
        _ => Err(Kind::Range),
    }
}

/// The pivot of a line `pivot ROW I0 I1 ..`, for a chain and its pairs.
pub fn pivot_line(
    alloc: Global,
    line: &[u8],
    chain: &Chain,
    pairs: &Pairs,
) -> Result<Pivot, LineFault>
    requires { pairs.now ≡ pairs_of chain.now }
    ensures ok { IfOk result (λ p. (line.now ≡ lines.pivot_line p) × lines.IsPivotInRange chain.now p) }
    ensures err { IfErr result (IsFault (lines.pivot_fault chain.now line.now)) }
{
    let row_count = pairs.count() + chain.words();
    let mut fields = Fields::of(line);
    fields.name(b"pivot")?;
    let row = fields.number()?;
    let walk = walk_of(alloc, fields)?;
    let Some(polygon) = Polygon::of(chain, walk) else {
        return Err(LineFault::Malformed(Kind::Form));
    };
    let row = row_of(row, row_count)?;
    Ok(Pivot { row, polygon })
}

/// The lines of the pivots of a chain.
#[derive(Drop)]
pub struct PivotLines;

impl LineItem for PivotLines {
    type Context = Head;

    type Value = Pivot;

    ghost kind = { λ k head before. lines.a_pivot head.chain };

    fn read(
        &self,
        alloc: Global,
        line: &[u8],
        _before: &[Pivot],
        head: &Head,
    ) -> Result<Pivot, LineFault> {
        pivot_line(alloc, line, head.chain(), head.pairs())
    }
}
