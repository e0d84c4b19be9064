//! The lines of a certificate that go by its chain.

ghost use Rattle.std.specs.Prelude.{length};
ghost use Rattle.sc_theory.specs.Chains.{positions};
ghost use Rattle.sc_theory.specs.Prices.{pairs};
ghost use Rattle.sc_theory.specs.Columns.{pair_at};
ghost use Rattle.sc_text.specs.PriceLines.{a_base, a_pair};
ghost use Rattle.sc_text.specs.TableLines.{a_table};

use crate::head::Head;
use crate::tables::Table;
use sc_line::{LineFault, NumberedItem};
use sc_text::{base_line, from_line, pair_line};
use std::alloc::Global;

/// The line of the price of each word.
#[derive(Drop)]
pub struct BaseLines;

impl NumberedItem for BaseLines {
    type Context = Head;

    type Value = i128;

    ghost kind = { λ k head before. a_base };

    ghost count_of = { λ k head. length head.chain };

    fn count(&self, head: &Head) -> usize {
        head.chain().words()
    }

    fn read(
        &self,
        _alloc: Global,
        line: &[u8],
        _before: &[i128],
        _head: &Head,
    ) -> Result<i128, LineFault> {
        Ok(base_line(line)?)
    }
}

/// The line of the price of each inverse pair.
#[derive(Drop)]
pub struct PairLines;

impl NumberedItem for PairLines {
    type Context = Head;

    type Value = i128;

    ghost kind = { λ k head before. a_pair (pair_at head.chain (length before)) };

    ghost count_of = { λ k head. length (pairs head.chain) };

    fn count(&self, head: &Head) -> usize {
        head.pairs().count()
    }

    fn read(
        &self,
        _alloc: Global,
        line: &[u8],
        before: &[i128],
        head: &Head,
    ) -> Result<i128, LineFault> {
        let (p, q) = head.pairs().pair_at(before.len());
        Ok(pair_line(line, p as u32, q as u32)?)
    }
}

/// The table of each start.
#[derive(Drop)]
pub struct TableLines;

impl NumberedItem for TableLines {
    type Context = Head;

    type Value = Table;

    ghost kind = { λ k head before. a_table (positions head.chain) (length before) };

    ghost count_of = { λ k head. positions head.chain };

    fn count(&self, head: &Head) -> usize {
        head.chain().positions()
    }

    fn read(
        &self,
        alloc: Global,
        line: &[u8],
        before: &[Table],
        head: &Head,
    ) -> Result<Table, LineFault> {
        let places = head.chain().positions();
        let entries = from_line(alloc, line, before.len() as u32, places)?;
        Ok(Table::of_small(entries))
    }
}
