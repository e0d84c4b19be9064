//! Laws of fan texts.

ghost use Rattle.std.specs.Prelude.{◌≡◌, ℕ, List, Result, IfOk, MatchResult};
ghost use Rattle.sc_line.specs.declared.fault.TextFault.{TextFault};
ghost use Rattle.sc_line.specs.declared.fault.TextFault.TheVariants.{Memory};
ghost use Rattle.sc_line.specs.Faults.{IsFaultless};
ghost use Rattle.sc_line.specs.Formats.{IsLineKind};
ghost use Rattle.sc_fan.specs.Corners.{corner_fault, corner_of_line, corner_line, IsCornerInRange};
ghost use Rattle.sc_fan.specs.declared.fan.Fan.{Fan};
ghost use Rattle.sc_fan.specs.Fans.{FanSaid, fan_text, fan_plan, IsFanInRange};
ghost use Rattle.sc_fan.specs.FanRead.{fan_said, plane_fan, IsJoined};
ghost use Rattle.sc_fan.specs.FanReader.{IsFanRead};

/// The lines of corners without a fault are the lines of the corners in range, and tell them.
pub fn corner_lines_are_a_kind()
    ensures { IsLineKind corner_fault corner_of_line corner_line IsCornerInRange }
{}

/// The text of a fan in its ranges has no fault at any line, so it is read again.
pub fn fan_text_is_faultless()
    ensures { (v : FanSaid) → IsFanInRange v → IsFaultless fan_plan (fan_text v) }
{}

/// A text without a fault is the text of a fan in its ranges.
pub fn faultless_is_fan_text()
    ensures { (text : List ℕ) → IsFaultless fan_plan text → (v : FanSaid) × IsFanInRange v × (text ≡ fan_text v) }
{}

/// No two fans in their ranges have the same text.
pub fn fan_text_is_of_one_fan()
    ensures { (v w : FanSaid) → IsFanInRange v → IsFanInRange w → fan_text v ≡ fan_text w → v ≡ w }
{}

/// What was printed of a fan whose edges go from their corners to the next is read as the same fan, unless memory runs
/// out.
pub fn printed_fans_are_read()
    ensures { (f : Fan) (r : Result Fan TextFault) → IsFanInRange (fan_said f) → IsJoined (plane_fan f)
        → IsFanRead (fan_text (fan_said f)) r → IfOk r (λ g. IsJoined (plane_fan g))
        → MatchResult r (λ g. plane_fan g ≡ plane_fan f) (λ e. e ≡ Memory) }
{}
