//! Parts of a text, which are read line by line, and two of them one after the other.

ghost use Rattle.std.specs.Prelude.{◌≡◌, false, IfErr, IfNone, IfSome, OnErr, OnOk};
ghost use Rattle.sc_line.specs.LineFaults.{IsFault};
ghost use Rattle.sc_line.specs.Formats.{Format, told, is_told, fault_due, Steps};
ghost use Rattle.sc_line.specs.Forms.{Both, and_also, both_due};

use crate::fault::LineFault;
use std::alloc::Global;
use std::marker::PhantomData;

/// A part of a text, as far as it was read.
pub trait LinePart: Drop {
    /// What is known besides when a line is read.
    type Context;

    /// What all the lines tell.
    type Out: Drop;

    // The same as contracts see it.
    ghost Told: { Type 0 };

    ghost says: { Self.Out → Told };

    // What is due behind the lines that were read.
    ghost due: { Self.Context → Self → Format Told };

    /// Whether all lines were read.
    fn is_whole(&self, context: &Self::Context) -> bool
        ensures { result ≡ is_told (due context.now self.now) };

    /// Reads the next line, without its LF. An `Err` changes nothing of what is due.
    fn take_line(
        &mut self,
        alloc: Global,
        line: &[u8],
        context: &Self::Context,
    ) -> Result<(), LineFault>
        requires { is_told (due context.now self.old) ≡ false }
        ensures ok { OnOk result (Steps (due context.now self.old) (due context.now self.new) line.now) }
        ensures err { IfErr result (IsFault (fault_due (due context.now self.old) line.now)) }
        ensures unchanged { OnErr result (due context.now self.new ≡ due context.now self.old) };

    /// What the lines told, if all were read.
    fn finish(self, context: &Self::Context) -> Option<Self::Out>
        ensures some { IfSome result (λ out. due context.now self ≡ told (says out)) }
        ensures none { IfNone result (is_told (due context.now self) ≡ false) };
}

/// A part and the one behind it.
#[derive(Drop)]
pub struct Pair<A, B> {
    pub first: A,
    pub second: B,
}

impl<A: LinePart, B: LinePart<Context = A::Context>> LinePart for Pair<A, B> {
    type Context = A::Context;

    type Out = (A::Out, B::Out);

    ghost Told = { Both A.Told B.Told };

    ghost says = { λ out. and_also (A.says out.0) (B.says out.1) };

    ghost due = { λ c p. both_due (A.due c p.first) (λ x. B.due c p.second) };

    fn is_whole(&self, context: &A::Context) -> bool {
        self.first.is_whole(context) && self.second.is_whole(context)
    }

    fn take_line(
        &mut self,
        alloc: Global,
        line: &[u8],
        context: &A::Context,
    ) -> Result<(), LineFault> {
        if self.first.is_whole(context) {
            self.second.take_line(alloc, line, context)
        } else {
            self.first.take_line(alloc, line, context)
        }
    }

    fn finish(self, context: &A::Context) -> Option<(A::Out, B::Out)> {
        // No field is moved out of a struct by its name: the pattern takes the struct apart.
        let Pair { first, second } = self;
        let front = first.finish(context)?;
        let back = second.finish(context)?;
        Some((front, back))
    }
}

/// A part that is read by itself, among parts that are read by what is known besides.
#[derive(Drop)]
pub struct Free<P, C> {
    pub part: P,
    pub of: PhantomData<C>,
}

impl<C, P: LinePart<Context = ()>> LinePart for Free<P, C> {
    type Context = C;

    type Out = P::Out;

    ghost Told = { P.Told };

    ghost says = { P.says };

    ghost due = { λ c p. P.due tt p.part };

    fn is_whole(&self, _context: &C) -> bool {
        self.part.is_whole(&())
    }

    fn take_line(&mut self, alloc: Global, line: &[u8], _context: &C) -> Result<(), LineFault> {
        self.part.take_line(alloc, line, &())
    }

    fn finish(self, _context: &C) -> Option<P::Out> {
        // No field is moved out of a struct by its name: the pattern takes the struct apart.
        let Free { part, of: _ } = self;
        part.finish(&())
    }
}
