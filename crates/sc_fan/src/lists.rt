//! The price list of an edge.

ghost use Rattle.std.specs.Prelude.{length, get_or};
ghost use Rattle.sc_text.specs.PriceLines.{a_base, a_pair};
ghost use Rattle.sc_fan.specs.Fans.{prices_due};
ghost use Rattle.sc_fan.specs.Reading.{taken, Gives};

use crate::lines::Lines;
use sc_certificate::PriceList;
use sc_chain::Pairs;
use sc_line::{LineFault, NumberedItem, TextFault};
use sc_text::{base_line, pair_line};
use std::alloc::Global;
use std::marker::Model;

// The lines of the prices of so many words.
#[derive(Drop)]
struct BaseLines {
    words: usize,
}

impl NumberedItem for BaseLines {
    type Context = ();

    type Value = i128;

    ghost kind = { λ k c before. a_base };

    ghost count_of = { λ k c. k.words };

    fn count(&self, _context: &()) -> usize {
        self.words
    }

    fn read(
        &self,
        _alloc: Global,
        line: &[u8],
        _before: &[i128],
        _context: &(),
    ) -> Result<i128, LineFault> {
        Ok(base_line(line)?)
    }
}

// The lines of the prices of pairs.
#[derive(Drop)]
struct PairLines;

impl NumberedItem for PairLines {
    type Context = Pairs;

    type Value = i128;

    ghost kind = { λ k pairs before. a_pair (get_or pairs (length before) (0, 0)) };

    ghost count_of = { λ k pairs. length pairs };

    fn count(&self, pairs: &Pairs) -> usize {
        pairs.count()
    }

    fn read(
        &self,
        _alloc: Global,
        line: &[u8],
        before: &[i128],
        pairs: &Pairs,
    ) -> Result<i128, LineFault> {
        let (p, q) = pairs.pair_at(before.len());
        Ok(pair_line(line, p as u32, q as u32)?)
    }
}

/// The price list for so many words and these pairs.
pub(crate) fn read_list(
    alloc: Global,
    lines: &mut Lines,
    words: usize,
    pairs: &Pairs,
) -> Result<PriceList, TextFault>
    ensures { Gives (λ list. (list, lines.new)) result (taken (prices_due words pairs.now) lines.old) }
{
    let scale = lines.scale()?;
    let base = lines.items(alloc, &BaseLines { words }, &())?;
    let pair = lines.items(alloc, &PairLines, pairs)?;
    Ok(PriceList::of_small(scale, base, pair))
}
