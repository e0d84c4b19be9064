//! A count, and as many lines of a kind.

ghost use Rattle.std.specs.Prelude.{◌≡◌, [], List, None};
ghost use Rattle.sc_line.specs.Forms.{counted_from};

use crate::fault::LineFault;
use crate::fields::count_line;
use crate::item::LineItem;
use crate::part::LinePart;
use std::alloc::Global;

/// A count under a name, at most so great, and as many lines of a kind: what was read of them.
#[derive(Drop)]
pub struct Counted<K: LineItem> {
    pub name: &'static [u8],
    pub most: u32,
    pub kind: K,
    pub count: Option<u32>,
    pub values: Vec<K::Value>,
}

impl<K: LineItem> Counted<K> {
    /// No line is read yet.
    pub fn new(alloc: Global, name: &'static [u8], most: u32, kind: K) -> Counted<K>
        ensures name { result.name.now ≡ name.now }
        ensures most { result.most ≡ most }
        ensures kind { result.kind ≡ kind }
        ensures uncounted { result.count ≡ None }
        ensures unread { result.values.items ≡ [] }
    {
        Counted {
            name,
            most,
            kind,
            count: None,
            values: Vec::new(alloc),
        }
    }

    /// The values that were read.
    pub fn values(&self) -> &[K::Value]
        ensures { result.now ≡ self.now.values.items }
    {
        self.values.as_slice()
    }
}

impl<K: LineItem> LinePart for Counted<K> {
    type Context = K::Context;

    type Out = Vec<K::Value>;

    ghost Told = { List K.Value };

    ghost says = { λ out. out.items };

    ghost due = { λ c p. counted_from p.name.now p.most (K.kind p.kind c) p.count p.values.items };

    fn is_whole(&self, _context: &K::Context) -> bool {
        match self.count {
            None => false,
            Some(count) => self.values.len() >= count as usize,
        }
    }

    fn take_line(
        &mut self,
        alloc: Global,
        line: &[u8],
        context: &K::Context,
    ) -> Result<(), LineFault> {
        match self.count {
            None => self.count = Some(count_line(line, self.name, 0, self.most)?),
            Some(_) => {
                let value = self
                    .kind
                    .read(alloc, line, self.values.as_slice(), context)?;
                self.values.push(value)?;
            }
        }
        Ok(())
    }

    fn finish(self, context: &K::Context) -> Option<Vec<K::Value>> {
        if !self.is_whole(context) {
            return None;
        }
        // No field is moved out of a struct by its name: the pattern takes the struct apart.
        let Counted {
            name: _,
            most: _,
            kind: _,
            count: _,
            values,
        } = self;
        Some(values)
    }
}
