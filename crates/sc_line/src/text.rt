//! Reads a text line by line.

ghost use Rattle.std.specs.Prelude.{◌≡◌, IfErr, IfOk};
ghost use Rattle.sc_line.specs.LineFaults.{at_line as at_the_line};
ghost use Rattle.sc_line.specs.Faults.{IsFaultOf};
ghost use Rattle.sc_line.specs.Formats.{plan_of, IsShort};
ghost use Rattle.sc_line.specs.Forms.{IsToldBy};

use crate::fault::{Kind, LineFault, TextFault};
use crate::fields::cut;
use crate::part::LinePart;
use std::alloc::Global;

fn at_line(line: u32, fault: LineFault) -> TextFault
    ensures { result ≡ at_the_line line fault }
{
    match fault {
        LineFault::Malformed(kind) => TextFault::Malformed { line, kind },
        LineFault::Memory => TextFault::Memory,
    }
}

/// What the bytes tell. A fault is the first line, counted from 1, that isn't as it is due, with the first kind that
/// applies to it.
pub fn read_by_lines<P: LinePart>(
    alloc: Global,
    part: P,
    context: &P::Context,
    bytes: &[u8],
) -> Result<P::Out, TextFault>
    requires short { IsShort 4_000_000_000 (P.due context.now part) }
    ensures ok { IfOk result (λ out. IsToldBy (P.due context.now part) bytes.now (P.says out)) }
    ensures err { IfErr result (IsFaultOf (plan_of (P.due context.now part)) bytes.now) }
{
    let mut part = part;
    let mut rest = bytes;
    let mut number: u32 = 1;
    while let Some((line, after)) = cut(rest, b'\n') {
        if part.is_whole(context) {
            return Err(TextFault::Malformed {
                line: number,
                kind: Kind::Rest,
            });
        }
        match part.take_line(alloc, line, context) {
            Ok(()) => rest = after,
            Err(fault) => return Err(at_line(number, fault)),
        }
        number += 1;
    }
    match part.finish(context) {
        None => Err(TextFault::Malformed {
            line: number,
            kind: Kind::Ended,
        }),
        Some(out) => {
            if rest.is_empty() {
                Ok(out)
            } else {
                Err(TextFault::Malformed {
                    line: number,
                    kind: Kind::Rest,
                })
            }
        }
    }
}
