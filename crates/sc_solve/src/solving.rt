//! The extremal surface of a chain.

ghost use Rattle.std.specs.Prelude.{◌≡◌, ◌<◌, ◌≤◌, ◌*◌, ℕ, length, pos, IfOk, IfErr};
ghost use Rattle.sc_theory.specs.Chains.{IsBalanced};
ghost use Rattle.sc_theory.specs.Fatgraphs.{IsFatgraph, IsLeast, cost};
ghost use Rattle.sc_theory.specs.Prices.{pairs as pairs_of, Covers};
ghost use Rattle.sc_fraction.specs.Frac.{IsQuotient};
ghost use Rattle.sc_text.specs.Surfaces.{IsChainInRange};
ghost use Rattle.sc_text.specs.declared.limits.TheConstants.{MAX_PIVOTS};
ghost use Rattle.sc_certificate.specs.Certificates.{IsCertificateInRange};
ghost use Rattle.sc_certificate.specs.Sizes.{IsSmallList, AreSmallTables, FitsCounts};
ghost use Rattle.sc_prices.specs.Conditions.{AllHold};
ghost use Rattle.sc_solve.specs.Lifts.{IsLift};
ghost use Rattle.sc_solve.specs.Solutions.{IsSolution, IsStopped, certificate_of};
ghost use Rattle.sc_solve.specs.inside.Endings.{IsEnding, IsCertified, IsUnlifted, IsUnglued};

use crate::assembling::{PartStop, surface_of};
use crate::ending::{Ending, check_chain};
use crate::lifting::{LiftFault, lift};
use crate::tabling::tables_of;
use crate::tries::solved;
use crate::{Solution, SolveFault};
use sc_certificate::{PriceList, Tables};
use sc_chain::{Chain, Pairs, Pivot};
use sc_fatgraph::{Fatgraph, fraction};
use std::alloc::{AllocError, Global};

/// The fault of a lift, after these pivots.
fn unlifted(journal: Vec<Pivot>, fault: LiftFault) -> SolveFault
    ensures { IsUnlifted journal.items fault result }
{
    match fault {
        LiftFault::Wide(at) => SolveFault::Wide { journal, at },
        LiftFault::Memory => SolveFault::Memory,
    }
}

/// The fault of gluing, after these pivots.
fn unglued(journal: Vec<Pivot>, stop: PartStop) -> SolveFault
    ensures { IsUnglued journal.items stop result }
{
    match stop {
        PartStop::Sides { part, so_far, next } => SolveFault::Sides {
            journal,
            part,
            so_far,
            next,
        },
        PartStop::Memory => SolveFault::Memory,
    }
}

/// What every price list keeps.
fn check_list(list: &PriceList)
    ensures { IsSmallList list.now }
{
    // For its contract alone, as in `check_chain`.
    let _scale = list.scale();
}

/// What all tables keep.
fn check_tables(tables: &Tables)
    ensures { AreSmallTables tables.now }
{
    // For its contract alone, as in `check_chain`.
    let _count = tables.len();
}

/// The solution with this surface and this list.
fn certified(
    alloc: Global,
    chain: &Chain,
    ending: Ending,
    list: PriceList,
    fatgraph: Fatgraph,
) -> Result<Solution, AllocError>
    requires sizes { FitsCounts (length chain.now) (length (pairs_of chain.now)) list }
    requires covers { Covers chain.now list }
    ensures { IfOk result (IsCertified chain.now ending list fatgraph) }
{
    let pairs = Pairs::of(alloc, chain)?;
    let tables = tables_of(alloc, chain, &pairs, &list)?;
    check_list(&list);
    check_tables(&tables);
    let counts = fatgraph.counts(alloc)?;
    let n = fatgraph.copies();
    Ok(Solution {
        n,
        value: fraction(&counts, n),
        fatgraph,
        list,
        tables,
        journal: ending.journal,
        columns: ending.columns,
    })
}

/// The solution of an optimal basis and the lift of its prices.
fn glued_solution(
    alloc: Global,
    chain: &Chain,
    ending: Ending,
    list: PriceList,
) -> Result<Solution, SolveFault>
    requires balanced { IsBalanced chain.now }
    requires ending { (budget : ℕ) × IsEnding chain.now budget ending }
    requires lift { IsLift chain.now ending.prices list }
    requires covers { Covers chain.now list }
    ensures solution { (budget : ℕ) → IsEnding chain.now budget ending → IfOk result (IsSolution chain.now budget) }
    ensures readable { (budget : ℕ) → IsEnding chain.now budget ending → IsChainInRange chain.now → budget ≤ MAX_PIVOTS → IfOk result (λ s. IsCertificateInRange (certificate_of s)) }
    ensures stopped { (budget : ℕ) → IsEnding chain.now budget ending → IfErr result (IsStopped chain.now budget) }
{
    check_chain(chain);
    let journal = ending.journal.as_slice();
    match surface_of(alloc, chain, journal, ending.values.as_slice()) {
        Ok(fatgraph) => {
            let solution = certified(alloc, chain, ending, list, fatgraph)?;
            Ok(solution)
        }
        Err(stop) => Err(unglued(ending.journal, stop)),
    }
}

/// The solution of an optimal basis.
pub(crate) fn solution_of(
    alloc: Global,
    chain: &Chain,
    ending: Ending,
) -> Result<Solution, SolveFault>
    requires balanced { IsBalanced chain.now }
    requires ending { (budget : ℕ) × IsEnding chain.now budget ending }
    ensures solution { (budget : ℕ) → IsEnding chain.now budget ending → IfOk result (IsSolution chain.now budget) }
    ensures readable { (budget : ℕ) → IsEnding chain.now budget ending → IsChainInRange chain.now → budget ≤ MAX_PIVOTS → IfOk result (λ s. IsCertificateInRange (certificate_of s)) }
    ensures stopped { (budget : ℕ) → IsEnding chain.now budget ending → IfErr result (IsStopped chain.now budget) }
{
    let pairs = Pairs::of(alloc, chain)?;
    match lift(alloc, chain, &pairs, &ending.prices) {
        Ok(list) => glued_solution(alloc, chain, ending, list),
        Err(fault) => Err(unlifted(ending.journal, fault)),
    }
}

/// A surface over copies of a balanced chain whose cost for each copy is the least that any has, by at most `budget`
/// pivots.
pub fn extremal(alloc: Global, chain: &Chain, budget: u32) -> Result<Solution, SolveFault>
    requires balanced { IsBalanced chain.now }
    requires budget { 0 < budget }

    // The surface is a labelled fatgraph over the copies, the value is its fraction, and no labelled fatgraph over
    // any number of copies has a smaller one.
    ensures chain { IfOk result (λ s. s.fatgraph.chain ≡ chain.now) }
    ensures copies { IfOk result (λ s. s.fatgraph.copies ≡ s.n) }
    ensures fatgraph { IfOk result (λ s. IsFatgraph chain.now s.n s.fatgraph.sides) }
    ensures value { IfOk result (λ s. IsQuotient (cost s.fatgraph.sides) (pos (2 * s.n)) s.value) }
    ensures least { IfOk result (λ s. IsLeast chain.now s.n s.fatgraph.sides) }

    // The journal is lawful and its last basis optimal; surface, list and tables are made of that basis.
    ensures solution { IfOk result (IsSolution chain.now budget) }

    // As a certificate the answer meets all conditions, and its text is one that is read.
    ensures conditions { IfOk result (λ s. AllHold (certificate_of s)) }
    ensures readable { IsChainInRange chain.now → budget ≤ MAX_PIVOTS → IfOk result (λ s. IsCertificateInRange (certificate_of s)) }

    // What stops the search is shown by its own journal.
    ensures stopped { IfErr result (IsStopped chain.now budget) }
{
    check_chain(chain);
    let solution = solved(alloc, chain, budget)?;
    Ok(solution)
}
