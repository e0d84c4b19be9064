//! Reading the surface that an input says. The input is the text of a surface, or that of a certificate, which has a
//! surface in it. The first line decides which: what doesn't begin as a certificate is read as a surface.

ghost use Rattle.std.specs.Prelude.{◌≡◌, IfOk, IfErr};
ghost use Rattle.sc_line.specs.Faults.{IsFaultOf};
ghost use Rattle.sc_app.specs.Said.{IsSaid, Says, heading_of, is_headed_as_certificate, plan_for};

use crate::answer::Answer;
use crate::rejection::rejected;
use sc_chain::TextFault;
use sc_fatgraph::{Fatgraph, Sides, SurfaceFault, SurfaceText, read_surface};
use sc_prices::{Certificate, Condition};
use std::alloc::{AllocError, Global};

/// The kind of text that a first line heads.
#[derive(Clone, Copy, Debug, PartialEq, Eq)]
pub enum Heading {
    /// A certificate.
    CertificateText,
    /// A surface, which is due in place of any other line too.
    SurfaceText,
}

/// What was found in an input.
#[derive(Drop)]
pub enum Said {
    /// The labelled fatgraph that it says.
    Fatgraph(Fatgraph),
    /// Why it says none: a malformed line, or the first flaw.
    Refused(Answer),
}

/// Whether the first line, with its line feed, is that of a certificate.
fn is_headed_as_certificate(input: &[u8]) -> bool
    ensures { result ≡ is_headed_as_certificate input.now }
{
    input.starts_with(b"scallop certificate 1\n")
}

/// The kind of text that the first line heads.
pub fn heading_of(input: &[u8]) -> Heading
    ensures { result ≡ heading_of input.now }
{
    if is_headed_as_certificate(input) {
        Heading::CertificateText
    } else {
        Heading::SurfaceText
    }
}

/// The surface that the input says, which may be no fatgraph.
fn read_said(alloc: Global, input: &[u8]) -> Result<SurfaceText, TextFault>
    ensures says { IfOk result (λ said. Says input.now said.chain said.n said.sides.items) }
    ensures malformed { IfErr result (IsFaultOf (plan_for input.now) input.now) }
{
    match heading_of(input) {
        Heading::SurfaceText => read_surface(alloc, input),
        Heading::CertificateText => {
            let Certificate {
                chain,
                n,
                sides,
                ..
            } = Certificate::read(alloc, input)?;
            Ok(SurfaceText { chain, n, sides })
        }
    }
}

/// Reads the labelled fatgraph that the input says.
pub fn read_fatgraph(alloc: Global, input: &[u8]) -> Result<Said, AllocError>
    ensures { IfOk result (IsSaid input.now) }
{
    let SurfaceText { chain, n, sides } = match read_said(alloc, input) {
        Ok(text) => text,
        Err(fault) => return Ok(Said::Refused(Answer::to_fault(fault)?)),
    };
    match Fatgraph::check(alloc, chain, n, Sides::from_vec(sides)) {
        Ok(fatgraph) => Ok(Said::Fatgraph(fatgraph)),
        Err(SurfaceFault::Flaw { kind, place }) => Ok(Said::Refused(rejected(
            alloc,
            Condition::Flaw { kind, place },
        )?)),
        Err(SurfaceFault::Memory) => Err(AllocError),
    }
}
