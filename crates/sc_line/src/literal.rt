//! A line that is due word by word.

ghost use Rattle.sc_line.specs.Forms.{literal_due};
ghost use Rattle.std.specs.Prelude.{◌≡◌, false};

use crate::fault::LineFault;
use crate::fields::literal_line;
use crate::part::LinePart;
use std::alloc::Global;

/// A line that is due word by word, and whether it was read.
#[derive(Drop)]
pub struct Literal {
    pub text: &'static [u8],
    pub read: bool,
}

impl Literal {
    /// The line isn't read yet.
    pub fn new(text: &'static [u8]) -> Literal
        ensures text { result.text.now ≡ text.now }
        ensures unread { result.read ≡ false }
    {
        Literal { text, read: false }
    }
}

impl LinePart for Literal {
    type Context = ();

    type Out = ();

    ghost Told = { Unit {0} };

    ghost says = { λ out. tt };

    ghost due = { λ c p. literal_due p.text.now p.read };

    fn is_whole(&self, _context: &()) -> bool {
        self.read
    }

    fn take_line(&mut self, _alloc: Global, line: &[u8], _context: &()) -> Result<(), LineFault> {
        literal_line(line, self.text)?;
        self.read = true;
        Ok(())
    }

    fn finish(self, _context: &()) -> Option<()> {
        self.read.then_some(())
    }
}
