//! The lines of a price list: its scale, and the prices of words and of pairs.

ghost use Rattle.std.specs.Prelude.{◌≡◌, ◌++◌, Some, IfOk, IfErr, OnOk, OnErr};
ghost use Rattle.sc_line.specs.Lines.{ended};
ghost use Rattle.sc_text.specs.PriceLines.{IsScaleInRange, IsPriceInRange, a_scale};
ghost use Rattle.sc_text.specs.PriceLines as lines;
ghost use Rattle.sc_line.specs.Printing.{AppendsPart};

use crate::limits::MAX_PRICE;
use crate::printing::{Field, print_line};
use sc_line::{Fields, Kind, LineFault, LineItem, number_line, within};
use std::alloc::{AllocError, Global};

/// The scale of a line `scale D`.
pub fn scale_line(line: &[u8]) -> Result<i128, Kind>
    ensures ok { IfOk result (λ d. (line.now ≡ lines.scale_line d) × IsScaleInRange d) }
    ensures err { IfErr result (λ kind. lines.scale_fault line.now ≡ Some kind) }
{
    number_line(line, b"scale", 1, MAX_PRICE)
}

/// The price of a line `base Z`.
pub fn base_line(line: &[u8]) -> Result<i128, Kind>
    ensures ok { IfOk result (λ z. (line.now ≡ lines.base_line z) × IsPriceInRange z) }
    ensures err { IfErr result (λ kind. lines.base_fault line.now ≡ Some kind) }
{
    number_line(line, b"base", -MAX_PRICE, MAX_PRICE)
}

/// The price of a line `pair P Q Y`, where `p` and `q` have to stand as P and Q.
pub fn pair_line(line: &[u8], p: u32, q: u32) -> Result<i128, Kind>
    ensures ok { IfOk result (λ y. (line.now ≡ lines.pair_line (p, q) y) × IsPriceInRange y) }
    ensures err { IfErr result (λ kind. lines.pair_fault (p, q) line.now ≡ Some kind) }
{
    let mut fields = Fields::of(line);
    fields.name(b"pair")?;
    fields.known(p)?;
    fields.known(q)?;
    let price = fields.number()?;
    fields.end()?;
    within(price, -MAX_PRICE, MAX_PRICE)
}

/// Appends the line of a scale.
pub fn print_scale_line(scale: i128, out: &mut Vec<u8>) -> Result<(), AllocError>
    ensures ok { OnOk result (out.new.items ≡ out.old.items ++ ended (lines.scale_line scale)) }
    ensures err { OnErr result (AppendsPart out.old.items out.new.items (ended (lines.scale_line scale))) }
{
    print_line(b"scale", &[Field::Number(scale)], out)
}

/// Appends the line of the price of a word.
pub fn print_base_line(price: i128, out: &mut Vec<u8>) -> Result<(), AllocError>
    ensures ok { OnOk result (out.new.items ≡ out.old.items ++ ended (lines.base_line price)) }
    ensures err { OnErr result (AppendsPart out.old.items out.new.items (ended (lines.base_line price))) }
{
    print_line(b"base", &[Field::Number(price)], out)
}

/// Appends the line of the price of a pair of positions.
pub fn print_pair_line(p: u32, q: u32, price: i128, out: &mut Vec<u8>) -> Result<(), AllocError>
    ensures ok { OnOk result (out.new.items ≡ out.old.items ++ ended (lines.pair_line (p, q) price)) }
    ensures err { OnErr result (AppendsPart out.old.items out.new.items (ended (lines.pair_line (p, q) price))) }
{
    let fields = [
        Field::Number(i128::from(p)),
        Field::Number(i128::from(q)),
        Field::Number(price),
    ];
    print_line(b"pair", &fields, out)
}

/// The line of a scale.
#[derive(Drop)]
pub struct ScaleLine;

impl LineItem for ScaleLine {
    type Context = ();

    type Value = i128;

    ghost kind = { λ k c before. a_scale };

    fn read(
        &self,
        _alloc: Global,
        line: &[u8],
        _before: &[i128],
        _context: &(),
    ) -> Result<i128, LineFault> {
        Ok(scale_line(line)?)
    }
}
