//! The lines of a text that is read from its front.

ghost use Rattle.std.specs.Prelude.{◌≡◌, ◌≢◌, ◌<◌, ◌^◌, false, [], ◌∷◌, length, None, IfErr, IfOk, OnOk};
ghost use Rattle.sc_line.specs.declared.fault.Kind.TheVariants as kinds;
ghost use Rattle.sc_line.specs.declared.fault.TextFault.TheVariants as text_faults;
ghost use Rattle.sc_line.specs.Lines.{parts};
ghost use Rattle.sc_line.specs.LineFaults.{at_line as at_the_line};
ghost use Rattle.sc_line.specs.Forms.{count_kind, literal_due, one_due, many_due};
ghost use Rattle.sc_text.specs.PriceLines.{a_scale};
ghost use Rattle.sc_fan.specs.Corners.{corner_said, a_corner};
ghost use Rattle.sc_fan.specs.Fans.{edge_line};
ghost use Rattle.sc_fan.specs.Reading.{left_of, IsNext, IsAtEnd, taken, Gives};

use crate::corner::Corner;
use crate::corners::corner_line;
use sc_line::{Kind, LineFault, NumberedItem, TextFault, cut, literal_line, number_line};
use sc_text::scale_line;
use std::alloc::Global;
use std::marker::Model;

/// The lines of a text that aren't read yet.
#[derive(Drop)]
pub(crate) struct Lines<'a> {
    rest: &'a [u8],
    // The number of the next line, counted from 1.
    number: u32,
}

impl<'a> Model for Lines<'a> {
    ghost use Rattle.std.specs.Prelude.{◌+◌, ◌<◌, ◌^◌, length};
    ghost use Rattle.sc_line.specs.Lines.{parts};
    ghost use Rattle.sc_fan.specs.Reading.{LinesLeft, left_of};

    ghost Value = { LinesLeft };

    ghost view = { λ l. left_of l.number (parts l.rest.now) };

    ghost invariant = { λ l. l.number + length l.rest.now < 2 ^ 32 };
}

fn at_line(line: u32, fault: LineFault) -> TextFault
    ensures { result ≡ at_the_line line fault }
{
    match fault {
        LineFault::Malformed(kind) => TextFault::Malformed { line, kind },
        LineFault::Memory => TextFault::Memory,
    }
}

impl<'a> Lines<'a> {
    /// The lines of a text.
    pub(crate) fn of(text: &'a [u8]) -> Lines<'a>
        requires { length text.now < 2 ^ 31 }
        ensures { result ≡ left_of 1 (parts text.now) }
    {
        Lines {
            rest: text,
            number: 1,
        }
    }

    // The next line behind its number.
    fn next(&mut self) -> Result<(u32, &'a [u8]), TextFault>
        ensures ok { IfOk result (λ next. IsNext self.old self.new next.0 next.1.now) }
        ensures err { IfErr result (IsAtEnd self.old) }
    {
        let number = self.number;
        match cut(self.rest, b'\n') {
            None => Err(TextFault::Malformed {
                line: number,
                kind: Kind::Ended,
            }),
            Some((line, after)) => {
                self.rest = after;
                self.number = number + 1;
                Ok((number, line))
            }
        }
    }

    /// Passes a line that is due word by word.
    pub(crate) fn literal(&mut self, text: &[u8]) -> Result<(), TextFault>
        ensures { Gives (λ u. (tt, self.new)) result (taken (literal_due text.now false) self.old) }
    {
        let (number, line) = self.next()?;
        match literal_line(line, text) {
            Ok(()) => Ok(()),
            Err(kind) => Err(TextFault::Malformed { line: number, kind }),
        }
    }

    /// The number of a line `NAME NUMBER`.
    pub(crate) fn count(&mut self, name: &[u8], low: u64, high: u64) -> Result<u64, TextFault>
        ensures { Gives (λ n. (n, self.new)) result (taken (one_due (count_kind name.now low high) None) self.old) }
    {
        let (number, line) = self.next()?;
        match number_line(line, name, i128::from(low), i128::from(high)) {
            Ok(count) => Ok(count as u64),
            Err(kind) => Err(TextFault::Malformed { line: number, kind }),
        }
    }

    /// Passes the line `edge NUMBER` of a number that is known.
    pub(crate) fn edge(&mut self, edge: u64) -> Result<(), TextFault>
        ensures { Gives (λ u. (tt, self.new)) result (taken (literal_due (edge_line edge) false) self.old) }
    {
        let (number, line) = self.next()?;
        match number_line(line, b"edge", i128::from(edge), i128::from(edge)) {
            Ok(_) => Ok(()),
            Err(_) => Err(TextFault::Malformed {
                line: number,
                kind: Kind::Form,
            }),
        }
    }

    /// The corner that the next line tells.
    pub(crate) fn corner(&mut self) -> Result<Corner, TextFault>
        ensures { Gives (λ c. (corner_said c, self.new)) result (taken (one_due a_corner None) self.old) }
    {
        let (number, line) = self.next()?;
        match corner_line(line) {
            Ok(corner) => Ok(corner),
            Err(kind) => Err(TextFault::Malformed { line: number, kind }),
        }
    }

    /// The scale that the next line tells.
    pub(crate) fn scale(&mut self) -> Result<i128, TextFault>
        ensures { Gives (λ scale. (scale, self.new)) result (taken (one_due a_scale None) self.old) }
    {
        let (number, line) = self.next()?;
        match scale_line(line) {
            Ok(scale) => Ok(scale),
            Err(kind) => Err(TextFault::Malformed { line: number, kind }),
        }
    }

    /// What the next line tells behind others.
    pub(crate) fn item<K: NumberedItem>(
        &mut self,
        alloc: Global,
        kind: &K,
        before: &[K::Value],
        context: &K::Context,
    ) -> Result<K::Value, TextFault>
        requires { length before.now < K.count_of kind.now context.now }
        ensures { Gives (λ x. (x, self.new)) result (taken (one_due (K.kind kind.now context.now before.now) None) self.old) }
    {
        let (number, line) = self.next()?;
        match kind.read(alloc, line, before, context) {
            Ok(value) => Ok(value),
            Err(fault) => Err(at_line(number, fault)),
        }
    }

    /// What the lines of a kind tell, as many as come.
    pub(crate) fn items<K: NumberedItem>(
        &mut self,
        alloc: Global,
        kind: &K,
        context: &K::Context,
    ) -> Result<Vec<K::Value>, TextFault>
        ensures { Gives (λ values. (values.items, self.new)) result (taken (many_due (K.kind kind.now context.now) (K.count_of kind.now context.now) []) self.old) }
    {
        let count = kind.count(context);
        let mut values = Vec::new(alloc);
        for _index in 0..count {
            let value = self.item(alloc, kind, values.as_slice(), context)?;
            values.push(value)?;
        }
        Ok(values)
    }

    /// Whether the text ends here.
    pub(crate) fn end(&self) -> Result<(), TextFault>
        ensures ok { OnOk result (self.now.parts ≡ [] ∷ []) }
        ensures err { IfErr result (λ e. (e ≡ text_faults.Malformed self.now.number kinds.Rest) × (self.now.parts ≢ ([] ∷ []))) }
    {
        if self.rest.is_empty() {
            Ok(())
        } else {
            Err(TextFault::Malformed {
                line: self.number,
                kind: Kind::Rest,
            })
        }
    }
}
