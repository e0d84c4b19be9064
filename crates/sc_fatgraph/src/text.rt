//! Fatgraphs as texts.

ghost use Rattle.std.specs.Prelude.{◌≡◌, ◌++◌, OnOk, OnErr};
ghost use Rattle.sc_chain.specs.Faults.{IsSmallChain};
ghost use Rattle.sc_text.specs.Surfaces.{IsSurfaceInRange};
ghost use Rattle.sc_line.specs.Printing.{AppendsPart};
ghost use Rattle.sc_fatgraph.specs.Texts.{text_of_surface, HaveWeights};

use crate::fatgraph::Fatgraph;
use sc_chain::{Chain, Word};
use sc_text::print_surface_text;
use std::alloc::AllocError;

// The words of a chain, each behind its weight.
fn entries_of(chain: &Chain) -> &[(u32, Word)]
    ensures words { result.now ≡ chain.now }
    ensures small { IsSmallChain chain.now }
{
    let entries = chain.entries();
    // `words` is called for its clause that the chain is within the limits, which `entries` doesn't have.
    let count = chain.words();
    prove!(entries.len() == count);
    entries
}

/// Appends the text of a fatgraph. Where memory runs out, a front of the text was appended.
pub fn print_surface(fatgraph: &Fatgraph, out: &mut Vec<u8>) -> Result<(), AllocError>
    ensures ok { OnOk result (out.new.items ≡ out.old.items ++ text_of_surface fatgraph.now) }
    ensures err { OnErr result (AppendsPart out.old.items out.new.items (text_of_surface fatgraph.now)) }

    // Where the weights are in their range, `read_surface` reads the text as this surface.
    ensures readable { HaveWeights fatgraph.now.chain → IsSurfaceInRange fatgraph.now.chain fatgraph.now.copies fatgraph.now.sides }
{
    let entries = entries_of(fatgraph.chain());
    print_surface_text(entries, fatgraph.copies(), fatgraph.sides().as_slice(), out)
}
