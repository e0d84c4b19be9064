//! One line that tells a value.

ghost use Rattle.std.specs.Prelude.{◌≡◌, [], None};
ghost use Rattle.sc_line.specs.Forms.{one_due};

use crate::fault::LineFault;
use crate::item::LineItem;
use crate::part::LinePart;
use std::alloc::Global;

/// One line of a kind, and the value that was read.
#[derive(Drop)]
pub struct One<K: LineItem> {
    pub kind: K,
    pub value: Option<K::Value>,
}

impl<K: LineItem> One<K> {
    /// The line isn't read yet.
    pub fn new(kind: K) -> One<K>
        ensures kind { result.kind ≡ kind }
        ensures unread { result.value ≡ None }
    {
        One { kind, value: None }
    }
}

impl<K: LineItem> LinePart for One<K> {
    type Context = K::Context;

    type Out = K::Value;

    ghost Told = { K.Value };

    ghost says = { λ out. out };

    ghost due = { λ c p. one_due (K.kind p.kind c []) p.value };

    fn is_whole(&self, _context: &K::Context) -> bool {
        self.value.is_some()
    }

    fn take_line(
        &mut self,
        alloc: Global,
        line: &[u8],
        context: &K::Context,
    ) -> Result<(), LineFault> {
        self.value = Some(self.kind.read(alloc, line, &[], context)?);
        Ok(())
    }

    fn finish(self, _context: &K::Context) -> Option<K::Value> {
        // No field is moved out of a struct by its name: the pattern takes the struct apart.
        let One { kind: _, value } = self;
        value
    }
}
