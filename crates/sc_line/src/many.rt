//! So many lines of a kind.

ghost use Rattle.std.specs.Prelude.{◌≡◌, [], List};
ghost use Rattle.sc_line.specs.Forms.{many_due};

use crate::fault::LineFault;
use crate::item::NumberedItem;
use crate::part::LinePart;
use std::alloc::Global;

/// So many lines of a kind, and the values that were read.
#[derive(Drop)]
pub struct Many<K: NumberedItem> {
    pub kind: K,
    pub values: Vec<K::Value>,
}

impl<K: NumberedItem> Many<K> {
    /// No line is read yet.
    pub fn new(alloc: Global, kind: K) -> Many<K>
        ensures kind { result.kind ≡ kind }
        ensures unread { result.values.items ≡ [] }
    {
        Many {
            kind,
            values: Vec::new(alloc),
        }
    }
}

impl<K: NumberedItem> LinePart for Many<K> {
    type Context = K::Context;

    type Out = Vec<K::Value>;

    ghost Told = { List K.Value };

    ghost says = { λ out. out.items };

    ghost due = { λ c p. many_due (K.kind p.kind c) (K.count_of p.kind c) p.values.items };

    fn is_whole(&self, context: &K::Context) -> bool {
        self.values.len() >= self.kind.count(context)
    }

    fn take_line(
        &mut self,
        alloc: Global,
        line: &[u8],
        context: &K::Context,
    ) -> Result<(), LineFault> {
        let value = self
            .kind
            .read(alloc, line, self.values.as_slice(), context)?;
        self.values.push(value)?;
        Ok(())
    }

    fn finish(self, context: &K::Context) -> Option<Vec<K::Value>> {
        let whole = self.is_whole(context);
        // No field is moved out of a struct by its name: the pattern takes the struct apart.
        let Many { kind: _, values } = self;
        whole.then_some(values)
    }
}
