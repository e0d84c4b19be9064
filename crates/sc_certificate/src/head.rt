//! What is known once the line of the value was read: the chain with its pairs, and the value.

ghost use Rattle.std.specs.Prelude.{◌≡◌, IfErr, IfOk};
ghost use Rattle.sc_theory.specs.Prices.{pairs as pairs_of};
ghost use Rattle.sc_line.specs.LineFaults.{IsFault};
ghost use Rattle.sc_text.specs.Surfaces.{IsChainInRange};
ghost use Rattle.sc_line.specs.Forms.{Tells};
ghost use Rattle.sc_text.specs.ValueLines.{a_value, quotient_of};

use sc_chain::{Chain, Pairs, Word};
use sc_fraction::Frac;
use sc_line::LineFault;
use sc_text::{chain_of, value_line};
use std::alloc::Global;
use std::marker::Model;

/// A chain, its pairs, and a value.
#[derive(Drop)]
pub struct Head {
    value: Frac,
    chain: Chain,
    pairs: Pairs,
}

impl Model for Head {
    ghost use Rattle.sc_certificate.specs.Heads.{ChainAndValue};

    ghost Value = { ChainAndValue };

    ghost use Rattle.sc_certificate.specs.Heads.{chain_and_value, HasItsPairs};

    ghost view = { chain_and_value };

    ghost invariant = { HasItsPairs };
}

impl Head {
    /// The value of a line `value NUM/DEN`, and the chain of the words that were read before.
    pub fn read(alloc: Global, line: &[u8], words: &[(u32, Word)]) -> Result<Head, LineFault>
        requires { IsChainInRange words.now }
        ensures chain { IfOk result (λ h. h.chain ≡ words.now) }
        ensures ok { IfOk result (λ h. Tells a_value line.now h.value) }
        ensures err { IfErr result (IsFault (a_value.fault line.now)) }
    {
        let value = value_line(line)?;
        let chain = chain_of(alloc, words)?;
        let pairs = Pairs::of(alloc, &chain)?;
        Ok(Head {
            value,
            chain,
            pairs,
        })
    }

    /// The chain.
    pub fn chain(&self) -> &Chain
        ensures { result.now ≡ self.now.chain }
    {
        &self.chain
    }

    /// The inverse pairs of the chain.
    pub fn pairs(&self) -> &Pairs
        ensures { result.now ≡ pairs_of self.now.chain }
    {
        &self.pairs
    }

    /// The chain and the value.
    pub fn into_parts(self) -> (Chain, Frac)
        ensures chain { result.0 ≡ self.chain }
        ensures value { quotient_of result.1 ≡ self.value }
    {
        let Head {
            value,
            chain,
            pairs: _,
        } = self;
        (chain, value)
    }
}
