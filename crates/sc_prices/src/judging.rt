//! What certificates are judged to be: their conditions, one after another.

ghost use Rattle.std.specs.Prelude.{◌≡◌, ◌↔◌, ◌≤◌, ◌*◌, ◌-ℤ◌, List, pos, length, IsTrue, IfOk};
ghost use Rattle.sc_theory.specs.Fatgraphs.{vertices, IsLeast, cost};
ghost use Rattle.sc_theory.specs.Prices.{pairs as inverse_pairs};
ghost use Rattle.sc_chain.specs.declared.polygon.Pivot.{Pivot};
ghost use Rattle.sc_fraction.specs.Frac.{IsQuotient};
ghost use Rattle.sc_certificate.specs.Certificates.{IsCertificateInRange};
ghost use Rattle.sc_certificate.specs.CertificateRead.{certificate_of};
ghost use Rattle.sc_certificate.specs.Sizes.{FitsCounts};
ghost use Rattle.sc_prices.specs.inside.Answers.{IsListAnswer};
ghost use Rattle.sc_prices.specs.Conditions.{stated, AllHold, IsFirstFailing, IsVerdictOn, IfOptimal};
ghost use Rattle.sc_prices.specs.declared.verdict.Condition.{Condition as AnyCondition};

use crate::tightness::tight;
use crate::verdict::{Condition, Verdict};
use crate::vouching::vouch;
use sc_certificate::{Certificate, PriceList, Tables};
use sc_chain::Pairs;
use sc_fatgraph::limits::MAX_COPIES;
use sc_fatgraph::{Counts, Fatgraph, Sides, SurfaceFault, fraction};
use sc_fraction::Frac;
use std::alloc::{AllocError, Global};

/// Whether the value is edges minus vertices over twice the copies.
fn is_fraction_of(value: Frac, counts: &Counts, n: u32) -> bool
    requires some_copies { 1 ≤ n }
    requires few_copies { n ≤ MAX_COPIES }
    ensures { IsTrue result ↔ IsQuotient (pos counts.now.edges -ℤ pos counts.now.vertices) (pos (2 * n)) value }
{
    value == fraction(counts, n)
}

/// Which condition of a price list fails for a fatgraph, the first if several do.
fn failing_of_list(
    alloc: Global,
    fatgraph: &Fatgraph,
    counts: &Counts,
    list: &PriceList,
    tables: &Tables,
) -> Result<Option<Condition>, AllocError>
    requires sizes { FitsCounts (length fatgraph.now.chain) (length (inverse_pairs fatgraph.now.chain)) list.now }
    requires counts { counts.now.vertices ≡ vertices fatgraph.now.sides }
    ensures { IfOk result (IsListAnswer fatgraph.now list.now tables.now) }
{
    let chain = fatgraph.chain();
    let pairs = Pairs::of(alloc, chain)?;
    if let Err(flaw) = vouch(chain, &pairs, list, tables) {
        return Ok(Some(Condition::Table(flaw)));
    }
    if !tight(list, chain, counts, fatgraph.copies()) {
        return Ok(Some(Condition::NotTight));
    }
    Ok(None)
}

/// What is to be said of a value, a price list and tables beside a fatgraph.
fn verdict_on(
    alloc: Global,
    fatgraph: &Fatgraph,
    value: Frac,
    list: &PriceList,
    tables: &Tables,
) -> Result<Verdict, AllocError>
    requires sizes { FitsCounts (length fatgraph.now.chain) (length (inverse_pairs fatgraph.now.chain)) list.now }
    ensures { IfOk result (λ verdict. (journal : List Pivot) → IsVerdictOn (stated fatgraph.now value list.now tables.now journal) verdict) }
{
    let counts = fatgraph.counts(alloc)?;
    if !is_fraction_of(value, &counts, fatgraph.copies()) {
        return Ok(Verdict::Rejected(Condition::Value));
    }
    match failing_of_list(alloc, fatgraph, &counts, list, tables)? {
        Some(condition) => Ok(Verdict::Rejected(condition)),
        None => Ok(Verdict::Optimal(value)),
    }
}

/// `Optimal` with the stated value where all conditions hold, else the first that fails.
pub fn judge(alloc: Global, certificate: Certificate) -> Result<Verdict, AllocError>
    requires in_range { IsCertificateInRange (certificate_of certificate) }
    ensures verdict { IfOk result (IsVerdictOn (certificate_of certificate)) }
    ensures optimal { AllHold (certificate_of certificate) → IfOk result (λ verdict. verdict ≡ Verdict.Optimal certificate.value) }
    ensures rejected { (condition : AnyCondition) → IsFirstFailing (certificate_of certificate) condition → IfOk result (λ verdict. verdict ≡ Verdict.Rejected condition) }
    ensures least { IfOk result (λ verdict. IfOptimal verdict (λ value. IsLeast certificate.chain certificate.n certificate.sides.items)) }
    ensures value { IfOk result (λ verdict. IfOptimal verdict (IsQuotient (cost certificate.sides.items) (pos (2 * certificate.n)))) }
{
    let Certificate {
        chain,
        value,
        n,
        sides,
        list,
        tables,
        journal: _,
    } = certificate;
    match Fatgraph::check(alloc, chain, n, Sides::from_vec(sides)) {
        Ok(fatgraph) => verdict_on(alloc, &fatgraph, value, &list, &tables),
        Err(SurfaceFault::Flaw { kind, place }) => {
            Ok(Verdict::Rejected(Condition::Flaw { kind, place }))
        }
        Err(SurfaceFault::Memory) => Err(AllocError),
    }
}
