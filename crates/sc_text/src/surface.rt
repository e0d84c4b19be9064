//! The reader of a surface text.

ghost use Rattle.sc_line.specs.declared.fault.Kind.{Kind};
ghost use Rattle.sc_line.specs.declared.fault.TextFault.TheVariants as text_faults;
ghost use Rattle.sc_line.specs.Faults.{IsFaultless, IsFaultOf, IsFirstFault};
ghost use Rattle.sc_text.specs.Surfaces.{surface_due, surface_plan, surface_text, IsSurfaceInRange};
ghost use Rattle.sc_text.specs.inside.SurfaceRead.{IsSurfaceRead};
ghost use Rattle.std.specs.Prelude.{◌≡◌, ◌⊎◌, IsErrAnd, MatchResult, ℕ, IfOk, IfErr, OnOk};
ghost use Rattle.sc_theory.specs.Chains.{Chain as AnyChain};
ghost use Rattle.sc_theory.specs.Fatgraphs.{Sides};

use crate::chains::chain_of_words;
use crate::limits::{Limits, VERSION_1};
use crate::sides::SideLines;
use crate::words::WordLines;
use sc_chain::Chain;
use sc_line::{CountLine, Counted, LinePart, Literal, One, Pair, TextFault, read_by_lines};
use sc_theory::Side;
use std::alloc::Global;

/// What a surface text says. The sides need not be a labelled fatgraph.
#[derive(Debug, Drop)]
pub struct SurfaceText {
    /// The chain.
    pub chain: Chain,
    /// How many copies of it the boundary is to run along, from 1 to 2^20.
    pub n: u32,
    /// The sides in order, at most 2^20.
    pub sides: Vec<Side>,
}

/// The parts of a surface text: its heading, the words, the copies, the sides and its last line.
type SurfaceLines = Pair<
    Literal,
    Pair<Counted<WordLines>, Pair<One<CountLine>, Pair<Counted<SideLines>, Literal>>>,
>;

/// The parts of a surface text of which nothing was read.
fn surface_lines(alloc: Global, limits: &Limits) -> SurfaceLines
    ensures { ⟦<SurfaceLines as LinePart>⟧.due tt result ≡ surface_due limits.now }
{
    let words = WordLines {
        letters: limits.positions,
        limits: *limits,
    };
    let sides = SideLines { limits: *limits };
    let copies = CountLine {
        name: b"copies",
        low: 1,
        high: limits.copies,
    };
    Pair {
        first: Literal::new(b"scallop surface 1"),
        second: Pair {
            first: Counted::new(alloc, b"words", limits.words, words),
            second: Pair {
                first: One::new(copies),
                second: Pair {
                    first: Counted::new(alloc, b"sides", limits.sides, sides),
                    second: Literal::new(b"end"),
                },
            },
        },
    }
}

// Reads by the parts. A function of its own, as all clauses of `read_surface` follow from this one.
fn read_parts(alloc: Global, bytes: &[u8]) -> Result<SurfaceText, TextFault>
    ensures { IsSurfaceRead bytes.now result }
{
    let parts = surface_lines(alloc, &VERSION_1);
    let (_, (words, (copies, (sides, _)))) = read_by_lines(alloc, parts, &(), bytes)?;
    let chain = chain_of_words(alloc, words)?;
    Ok(SurfaceText {
        chain,
        n: copies,
        sides,
    })
}

/// The chain, the copies and the sides whose text the bytes are. A fault is the first line, counted from 1, that
/// isn't as it is due, with the first kind that applies to it.
pub fn read_surface(alloc: Global, bytes: &[u8]) -> Result<SurfaceText, TextFault>
    // What is read is the surface of which the bytes are the text.
    ensures text { IfOk result (λ s. bytes.now ≡ surface_text s.chain s.n s.sides.items) }
    ensures in_range { IfOk result (λ s. IsSurfaceInRange s.chain s.n s.sides.items) }
    ensures faultless { OnOk result (IsFaultless surface_plan bytes.now) }

    // The fault that is answered is the first one, and the first fault is answered, unless memory runs out.
    ensures malformed { IfErr result (IsFaultOf surface_plan bytes.now) }
    ensures only { (line : ℕ) (kind : Kind) → IsFirstFault surface_plan bytes.now line kind
        → IsErrAnd result (λ e. (e ≡ text_faults.Malformed line kind) ⊎ (e ≡ text_faults.Memory)) }

    // The text of a surface is read as that surface, unless memory runs out.
    ensures again { (c : AnyChain) (n : ℕ) (g : Sides) → IsSurfaceInRange c n g → bytes.now ≡ surface_text c n g
        → MatchResult result (λ s. (s.chain ≡ c) × (s.n ≡ n) × (s.sides.items ≡ g)) (λ e. e ≡ text_faults.Memory) }
{
    read_parts(alloc, bytes)
}
