//! Whether tables vouch for a price list.

ghost use Rattle.std.specs.Prelude.{◌≡◌, ◌↔◌, ◌<◌, ℤ, length, IsTrue, Some, IsOk, IfErr};
ghost use Rattle.sc_theory.specs.Chains.{positions};
ghost use Rattle.sc_theory.specs.Prices.{pairs as inverse_pairs, Vouch};
ghost use Rattle.sc_certificate.specs.Sizes.{FitsCounts};
ghost use Rattle.sc_fatgraph.specs.inside.Flaws.{IsLeastPlace};
ghost use Rattle.sc_prices.specs.Flaws.{Undercuts, HasStepFlaw, IsFirstTableFlaw};
ghost use Rattle.sc_prices.specs.inside.OneTable.{IsFirstInTable};

use crate::flaws::TableFlaw;
use crate::prices::step_price;
use sc_certificate::{PriceList, Tables};
use sc_chain::{Chain, Pairs};

/// Whether a total is below the scale, back at the start, and elsewhere below the entry or without one.
fn undercuts(list: &PriceList, tables: &Tables, start: usize, place: usize, total: i128) -> bool
    ensures { IsTrue result ↔ Undercuts list.now tables.now start place total }
{
    if place == start {
        return total < list.scale();
    }
    match tables.entry(start, place) {
        Some(entry) => total < entry,
        None => true,
    }
}

/// The least end of a step from a place that the table of the start doesn't vouch for.
fn first_end(
    chain: &Chain,
    pairs: &Pairs,
    list: &PriceList,
    tables: &Tables,
    start: usize,
    from: usize,
) -> Option<usize>
    requires start { start < positions chain.now }
    requires from { from < positions chain.now }
    requires pairs { pairs.now ≡ inverse_pairs chain.now }
    requires sizes { FitsCounts (length chain.now) (length (inverse_pairs chain.now)) list.now }
    ensures { IsLeastPlace (HasStepFlaw chain.now list.now tables.now start from) result }
{
    let reached = tables.entry(start, from)?;
    for to in 0..chain.positions() {
        if chain.is_step(from, to) {
            let total = reached + step_price(chain, pairs, list, from, to);
            if undercuts(list, tables, start, to, total) {
                return Some(to);
            }
        }
    }
    None
}

/// The first flaw in the table of a start.
fn first_flaw_from(
    chain: &Chain,
    pairs: &Pairs,
    list: &PriceList,
    tables: &Tables,
    start: usize,
) -> Option<TableFlaw>
    requires start { start < positions chain.now }
    requires pairs { pairs.now ≡ inverse_pairs chain.now }
    requires sizes { FitsCounts (length chain.now) (length (inverse_pairs chain.now)) list.now }
    ensures { IsFirstInTable chain.now list.now tables.now start result }
{
    let positions = chain.positions();
    if tables.entry(start, start) != Some(0) {
        return Some(TableFlaw::Start {
            start: start as u32,
        });
    }
    for from in 0..positions {
        if let Some(to) = first_end(chain, pairs, list, tables, start, from) {
            return Some(TableFlaw::Step {
                start: start as u32,
                from: from as u32,
                to: to as u32,
            });
        }
    }
    None
}

/// Whether the tables vouch for the list, else their first flaw: by start; for a start first that its table doesn't
/// have 0 there, then the steps by their beginning, then their end.
pub fn vouch(
    chain: &Chain,
    pairs: &Pairs,
    list: &PriceList,
    tables: &Tables,
) -> Result<(), TableFlaw>
    requires pairs { pairs.now ≡ inverse_pairs chain.now }
    requires sizes { FitsCounts (length chain.now) (length (inverse_pairs chain.now)) list.now }
    ensures exactly { IsOk result ↔ Vouch chain.now list.now tables.now }
    ensures flaw { IfErr result (IsFirstTableFlaw chain.now list.now tables.now) }
{
    for start in 0..chain.positions() {
        if let Some(flaw) = first_flaw_from(chain, pairs, list, tables, start) {
            return Err(flaw);
        }
    }
    Ok(())
}
