//! The command `svg`.

ghost use Rattle.std.specs.Prelude.{◌≡◌, ◌≤◌, length, map, IfOk};
ghost use Rattle.std.specs.List.{AllByRecursion};
ghost use Rattle.sc_fan.specs.Corners.{IsCornerInRange, corner_said};
ghost use Rattle.sc_app.specs.Answer.{status_of, text_of};
ghost use Rattle.sc_app.specs.Svg.{SvgResponds, FanResponds, IsPicture, is_headed_as_fan, corner_of};
ghost use Rattle.sc_app.specs.Said.{RespondsBySides};
ghost use Rattle.sc_app.specs.declared.limits.TheConstants.{MAX_TEXT_BYTES};

use crate::answer::Answer;
use crate::said::{Said, read_fatgraph};
use sc_fan::{Corner, Fan};
use sc_svg::{Spot, draw, draw_fan};
use std::alloc::{AllocError, Global};

/// Whether the first line, with its line feed, is that of a fan.
fn is_headed_as_fan(input: &[u8]) -> bool
    ensures { result ≡ is_headed_as_fan input.now }
{
    input.starts_with(b"scallop fan 1\n")
}

/// A corner as it is drawn.
fn spot_of(corner: &Corner) -> Spot
    requires { IsCornerInRange (corner_said corner.now) }
    ensures { corner_of result ≡ corner_said corner.now }
{
    Spot {
        s: corner.direction.s,
        t: corner.direction.t,
        num: corner.value.num() as i64,
        den: corner.value.den() as i64,
    }
}

/// Corners as they are drawn.
fn spots_of(alloc: Global, corners: &[Corner]) -> Result<Vec<Spot>, AllocError>
    requires { AllByRecursion IsCornerInRange (map corner_said corners.now) }
    ensures { IfOk result (λ spots. map corner_of spots.items ≡ map corner_said corners.now) }
{
    let mut spots = Vec::new(alloc);
    for corner in corners {
        spots.push(spot_of(corner))?;
    }
    Ok(spots)
}

/// Reads the text of a fan and draws it, or answers its first malformed line.
fn answer_fan(alloc: Global, input: &[u8]) -> Result<Answer, AllocError>
    requires { length input.now ≤ MAX_TEXT_BYTES }
    ensures { IfOk result (λ answer. FanResponds input.now (status_of answer) (text_of answer)) }
{
    let fan = match Fan::read(alloc, input) {
        Ok(fan) => fan,
        Err(fault) => return Answer::to_fault(fault),
    };
    let spots = spots_of(alloc, fan.corners.as_slice())?;
    Ok(Answer::Text(draw_fan(alloc, spots.as_slice())?))
}

/// Reads a surface text or a certificate and draws the surface, or answers why it is none.
fn answer_surface(alloc: Global, input: &[u8]) -> Result<Answer, AllocError>
    ensures { IfOk result (λ answer. RespondsBySides IsPicture input.now (status_of answer) (text_of answer)) }
{
    match read_fatgraph(alloc, input)? {
        Said::Fatgraph(fatgraph) => Ok(Answer::Text(draw(alloc, &fatgraph)?)),
        Said::Refused(answer) => Ok(answer),
    }
}

/// Reads the text of a surface, a certificate or a fan and draws what it says, or answers why it says nothing.
pub fn answer_svg(alloc: Global, input: &[u8]) -> Result<Answer, AllocError>
    requires { length input.now ≤ MAX_TEXT_BYTES }
    ensures { IfOk result (λ answer. SvgResponds input.now (status_of answer) (text_of answer)) }
{
    if is_headed_as_fan(input) {
        answer_fan(alloc, input)
    } else {
        answer_surface(alloc, input)
    }
}
