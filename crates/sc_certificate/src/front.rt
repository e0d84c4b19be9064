//! The heading and the words of a certificate.

ghost use Rattle.std.specs.Prelude.{◌≡◌, true, false, IfErr, OnErr, OnOk};
ghost use Rattle.sc_line.specs.LineFaults.{IsFault};
ghost use Rattle.sc_line.specs.Formats.{told, is_told, fault_due, Steps};
ghost use Rattle.sc_line.specs.Forms.{and_also};
ghost use Rattle.sc_text.specs.Surfaces.{IsChainInRange};
ghost use Rattle.sc_certificate.specs.Fronts.{front_at, front_start};

use sc_chain::Word;
use sc_line::{Counted, LineFault, LinePart, Literal, Pair};
use sc_text::WordLines;
use sc_text::limits::VERSION_1;
use std::alloc::Global;
use std::marker::Model;

/// The heading and the words, as far as they were read.
#[derive(Drop)]
pub struct Front {
    lines: Pair<Literal, Counted<WordLines>>,
}

impl Model for Front {
    ghost use Rattle.sc_certificate.specs.Fronts.{FrontSoFar};

    ghost Value = { FrontSoFar };

    ghost use Rattle.sc_certificate.specs.FrontRead.{front_so_far, IsFront};

    ghost view = { front_so_far };

    ghost invariant = { IsFront };
}

impl Front {
    /// Nothing is read yet.
    pub fn new(alloc: Global) -> Front
        ensures { front_at result ≡ front_start }
    {
        let words = WordLines {
            letters: VERSION_1.positions,
            limits: VERSION_1,
        };
        Front {
            lines: Pair {
                first: Literal::new(b"scallop certificate 1"),
                second: Counted::new(alloc, b"words", VERSION_1.words, words),
            },
        }
    }

    /// Whether the heading and all words were read.
    pub fn is_whole(&self) -> bool
        ensures { result ≡ is_told (front_at self.now) }
    {
        self.lines.is_whole(&())
    }

    /// Reads the next line. An `Err` changes nothing of what is due.
    pub fn take_line(&mut self, alloc: Global, line: &[u8]) -> Result<(), LineFault>
        requires { is_told (front_at self.old) ≡ false }
        ensures ok { OnOk result (Steps (front_at self.old) (front_at self.new) line.now) }
        ensures err { IfErr result (IsFault (fault_due (front_at self.old) line.now)) }
        ensures unchanged { OnErr result (front_at self.new ≡ front_at self.old) }
    {
        self.lines.take_line(alloc, line, &())
    }

    /// The words, each behind its weight, where all were read.
    pub fn words(&self) -> &[(u32, Word)]
        requires { is_told (front_at self.now) ≡ true }
        ensures told { front_at self.now ≡ told (and_also tt result.now) }
        ensures in_range { IsChainInRange result.now }
    {
        self.lines.second.values()
    }
}
