//! Parts of a text, which are printed, and two of them one behind the other.

ghost use Rattle.std.specs.Prelude.{◌≡◌, ◌++◌, List, ℕ, OnErr, OnOk};
ghost use Rattle.sc_line.specs.Lines.{text_of};
ghost use Rattle.sc_line.specs.Printing.{AppendsPart};

use std::alloc::AllocError;

/// Lines that can be printed.
pub trait PrintPart {
    ghost lines: { Self → List (List ℕ) };

    // What makes the lines fit to be printed.
    ghost IsFit: { Self → Type 0 } = { λ _. Unit {0} };

    /// Appends the lines. Where memory runs out, a front of them was appended.
    fn print(&self, out: &mut Vec<u8>) -> Result<(), AllocError>
        requires { IsFit self.now }
        ensures ok { OnOk result (out.new.items ≡ out.old.items ++ text_of (lines self.now)) }
        ensures err { OnErr result (AppendsPart out.old.items out.new.items (text_of (lines self.now))) };
}

/// Lines and those behind them.
pub struct Behind<A, B> {
    pub first: A,
    pub second: B,
}

impl<A: PrintPart, B: PrintPart> PrintPart for Behind<A, B> {
    ghost lines = { λ p. A.lines p.first ++ B.lines p.second };

    ghost IsFit = { λ p. A.IsFit p.first × B.IsFit p.second };

    fn print(&self, out: &mut Vec<u8>) -> Result<(), AllocError> {
        self.first.print(out)?;
        self.second.print(out)
    }
}
