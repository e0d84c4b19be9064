//! The chains of a fan text.

ghost use Rattle.std.specs.Prelude.{◌≡◌, ◌≤◌, ◌-◌, true};
ghost use Rattle.sc_theory.specs.Chains.{positions};
ghost use Rattle.sc_chain.specs.declared.limits.TheConstants.{MAX_POSITIONS, MAX_WORDS};
ghost use Rattle.sc_line.specs.Lines.{lacks};
ghost use Rattle.sc_text.specs.declared.limits.TheConstants.{VERSION_1 as version_1};
ghost use Rattle.sc_text.specs.Words.{a_word};
ghost use Rattle.sc_fan.specs.Fans.{chain_due};
ghost use Rattle.sc_fan.specs.Reading.{taken, Gives};

use crate::lines::Lines;
use sc_chain::{Chain, Word};
use sc_line::{LineFault, LineItem, NumberedItem, TextFault};
use sc_text::limits::VERSION_1;
use sc_text::{WordLines, chain_of_words};
use std::alloc::Global;

// The lines of so many words, which may have so many letters together.
#[derive(Drop)]
struct Words {
    count: usize,
    letters: usize,
}

impl NumberedItem for Words {
    type Context = ();

    type Value = (u32, Word);

    ghost kind = { λ k c before. a_word version_1 (k.letters - positions before) };

    ghost count_of = { λ k c. k.count };

    fn count(&self, _context: &()) -> usize {
        self.count
    }

    fn read(
        &self,
        alloc: Global,
        line: &[u8],
        before: &[(u32, Word)],
        context: &(),
    ) -> Result<(u32, Word), LineFault> {
        let words = WordLines {
            letters: self.letters,
            limits: VERSION_1,
        };
        words.read(alloc, line, before, context)
    }
}

/// The chain under a name, of at most so many words and letters.
pub(crate) fn read_chain(
    alloc: Global,
    lines: &mut Lines,
    name: &[u8],
    words: usize,
    letters: usize,
) -> Result<Chain, TextFault>
    requires few_words { words ≤ MAX_WORDS }
    requires few_letters { letters ≤ MAX_POSITIONS }
    requires named { lacks 32 name.now ≡ true }
    requires unended { lacks 10 name.now ≡ true }
    ensures { Gives (λ chain. (chain, lines.new)) result (taken (chain_due name.now words letters) lines.old) }
{
    let count = lines.count(name, 0, words as u64)?;
    let kind = Words {
        count: count as usize,
        letters,
    };
    let words = lines.items(alloc, &kind, &())?;
    let chain = chain_of_words(alloc, words)?;
    Ok(chain)
}
