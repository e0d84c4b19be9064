//! The reader of a certificate text.

ghost use Rattle.std.specs.Prelude.{◌≡◌};
ghost use Rattle.sc_line.specs.Forms.{and_also};
ghost use Rattle.sc_text.specs.ValueLines.{quotient_of};
ghost use Rattle.sc_certificate.specs.Certificates.{Certificate as AnyCertificate, certificate_told, body_form, no_body, certificate_due};
ghost use Rattle.sc_certificate.specs.CertificateRead.{IsCertificateRead};
ghost use Rattle.sc_certificate.specs.Fronts.{front_at};
ghost use Rattle.sc_text.specs.declared.limits.TheConstants.{VERSION_1};
ghost use Rattle.sc_certificate.specs.Heads.{ChainAndValue, lines_at};

use crate::certificate::Certificate;
use crate::front::Front;
use crate::head::Head;
use crate::items::{BaseLines, PairLines, TableLines};
use crate::pivots::PivotLines;
use crate::price_list::PriceList;
use crate::tables::{Table, Tables};
use sc_chain::{Chain, Pivot};
use sc_fraction::Frac;
use sc_line::{
    CountLine, Counted, Free, LineFault, LinePart, Literal, Many, One, Pair, TextFault,
    read_by_lines,
};
use sc_text::limits::{Limits, VERSION_1};
use sc_text::{ScaleLine, SideLines};
use sc_theory::Side;
use std::alloc::Global;
use std::marker::PhantomData;

/// The parts of a certificate text behind its value, which are read by what is known by then: the copies, the sides,
/// the scale, the prices of words and of pairs, the tables, the journal, and the last line.
type Body = Pair<
    Free<One<CountLine>, Head>,
    Pair<
        Free<Counted<SideLines>, Head>,
        Pair<
            Free<One<ScaleLine>, Head>,
            Pair<
                Many<BaseLines>,
                Pair<
                    Many<PairLines>,
                    Pair<Many<TableLines>, Pair<Counted<PivotLines>, Free<Literal, Head>>>,
                >,
            >,
        >,
    >,
>;

/// What the parts behind the value tell.
type BodyOut = (
    u32,
    (
        Vec<Side>,
        (
            i128,
            (Vec<i128>, (Vec<i128>, (Vec<Table>, (Vec<Pivot>, ())))),
        ),
    ),
);

/// The parts of a certificate text, as far as they were read.
#[derive(Drop)]
struct CertificateLines {
    front: Front,
    head: Option<Head>,
    body: Body,
}

impl LinePart for CertificateLines {
    type Context = ();

    type Out = (Chain, Frac, BodyOut);

    ghost Told = { AnyCertificate };

    ghost says = { λ out. certificate_told (and_also (and_also tt out.0) (and_also (quotient_of out.1) (⟦<Body as LinePart>⟧.says out.2))) };

    ghost due = { λ c p. lines_at (front_at p.front) p.head (λ h. ⟦<Body as LinePart>⟧.due h p.body) };

    fn is_whole(&self, _context: &()) -> bool {
        match &self.head {
            None => false,
            Some(head) => self.body.is_whole(head),
        }
    }

    fn take_line(&mut self, alloc: Global, line: &[u8], _context: &()) -> Result<(), LineFault> {
        match &self.head {
            Some(head) => self.body.take_line(alloc, line, head),
            None => {
                if !self.front.is_whole() {
                    return self.front.take_line(alloc, line);
                }
                self.head = Some(Head::read(alloc, line, self.front.words())?);
                // The words stand in the chain from here on.
                self.front = Front::new(alloc);
                Ok(())
            }
        }
    }

    fn finish(self, _context: &()) -> Option<(Chain, Frac, BodyOut)> {
        let CertificateLines {
            front: _,
            head,
            body,
        } = self;
        let head = head?;
        let out = body.finish(&head)?;
        let (chain, value) = head.into_parts();
        Some((chain, value, out))
    }
}

/// The parts behind the value, of which nothing was read.
fn new_body(alloc: Global, limits: &Limits) -> Body
    ensures { (h : ChainAndValue) → ⟦<Body as LinePart>⟧.due h result ≡ (body_form limits.now h.chain).due no_body }
{
    let copies = CountLine {
        name: b"copies",
        low: 1,
        high: limits.copies,
    };
    let sides = SideLines { limits: *limits };
    Pair {
        first: Free {
            part: One::new(copies),
            of: PhantomData,
        },
        second: Pair {
            first: Free {
                part: Counted::new(alloc, b"sides", limits.sides, sides),
                of: PhantomData,
            },
            second: Pair {
                first: Free {
                    part: One::new(ScaleLine),
                    of: PhantomData,
                },
                second: Pair {
                    first: Many::new(alloc, BaseLines),
                    second: Pair {
                        first: Many::new(alloc, PairLines),
                        second: Pair {
                            first: Many::new(alloc, TableLines),
                            second: Pair {
                                first: Counted::new(alloc, b"pivots", limits.pivots, PivotLines),
                                second: Free {
                                    part: Literal::new(b"end"),
                                    of: PhantomData,
                                },
                            },
                        },
                    },
                },
            },
        },
    }
}

impl CertificateLines {
    /// Nothing is read yet.
    fn new(alloc: Global) -> CertificateLines
        ensures { ⟦<CertificateLines as LinePart>⟧.due tt result ≡ certificate_due VERSION_1 }
    {
        CertificateLines {
            front: Front::new(alloc),
            head: None,
            body: new_body(alloc, &VERSION_1),
        }
    }
}

/// Reads by the parts. A function of its own, as all clauses of `Certificate::read` follow from this one.
pub(crate) fn read_parts(alloc: Global, bytes: &[u8]) -> Result<Certificate, TextFault>
    ensures { IsCertificateRead bytes.now result }
{
    let lines = CertificateLines::new(alloc);
    let (chain, value, out) = read_by_lines(alloc, lines, &(), bytes)?;
    let (n, (sides, (scale, (base, (pair, (tables, (journal, _))))))) = out;
    Ok(Certificate {
        chain,
        value,
        n,
        sides,
        list: PriceList::of_small(scale, base, pair),
        tables: Tables::of_small(tables),
        journal,
    })
}
