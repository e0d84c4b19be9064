//! Tries, one after another, each with candidates of another mode of advice. A refusal of the last journal is told
//! with that very journal.

ghost use Rattle.std.specs.Prelude.{◌≡◌, ◌<◌, ◌≤◌, ℕ, IfOk, IfErr, IfSome};
ghost use Rattle.sc_theory.specs.Chains.{Chain as AnyChain, IsBalanced};
ghost use Rattle.sc_text.specs.Surfaces.{IsChainInRange};
ghost use Rattle.sc_text.specs.declared.limits.TheConstants.{MAX_PIVOTS};
ghost use Rattle.sc_certificate.specs.Certificates.{IsCertificateInRange};
ghost use Rattle.sc_solve.specs.Solutions.{IsSolution, IsStopped, certificate_of};
ghost use Rattle.sc_solve.specs.inside.Endings.{IsEnding, is_budget};

use crate::ending::{Ending, optimal_ending};
use crate::solving::solution_of;
use crate::{Solution, SolveFault};
use sc_advice::Mode;
use sc_candidates::{Try, tries};
use sc_chain::{Chain, Pairs};
use sc_fatgraph::limits::MAX_SIDES;
use sc_fraction::Frac;
use sc_whole::gcd;
use std::alloc::{AllocError, Global};

/// Why a try has no solution.
#[derive(Drop)]
struct Failure {
    fault: SolveFault,
    /// Whether the value alone asks for too many sides.
    is_forced: bool,
}

/// What the tries so far came to.
#[derive(Drop)]
struct Refusal {
    /// The most telling refusal. A try that made all its pivots, of which the budget has more, has none.
    fault: Option<SolveFault>,
    /// Whether another try would be in vain.
    is_final: bool,
}

/// The sum of some values, if it fits.
fn sum_of(values: &[Frac]) -> Option<Frac> {
    let mut sum = Frac::new(0, 1).ok()?;
    for value in values {
        sum = sum.plus(value).ok()?;
    }
    Some(sum)
}

/// Whether each surface whose vertices are so many for each copy has too many sides: it runs round the chain a
/// multiple of half the denominator of its value, or of the denominator where that is odd.
fn is_forced(chain: &Chain, vertices: &Frac) -> bool {
    let length = i128::from(chain.length());
    // Nothing bounds the values here, and no contract speaks of the answer, so what doesn't fit is cut off.
    let edges = length.saturating_mul(vertices.den());
    let cost = edges.saturating_sub(vertices.num().saturating_mul(2));
    let whole = vertices.den().saturating_mul(4);
    let den = whole
        .unsigned_abs()
        .checked_div(gcd(cost, whole))
        .unwrap_or(1);
    let copies = if den % 2 == 0 { den / 2 } else { den };
    copies.saturating_mul(u128::from(chain.length())) > MAX_SIDES as u128
}

/// Whether the values ask for too many sides with every surface that is as good.
fn are_forced(chain: &Chain, values: &[Frac]) -> bool {
    sum_of(values).is_some_and(|sum| is_forced(chain, &sum))
}

/// Whether all pivots were made.
fn is_budget(fault: &SolveFault) -> bool
    ensures { result ≡ is_budget fault.now }
{
    matches!(fault, SolveFault::Budget { .. })
}

/// How much a refusal tells.
fn weight_of(fault: &SolveFault) -> u8 {
    match fault {
        SolveFault::Sides { .. } => 3,
        SolveFault::Budget { .. } => 2,
        SolveFault::Wide { .. } => 1,
        SolveFault::Memory => 0,
    }
}

/// The one of two refusals that tells more.
fn more_telling(one: SolveFault, other: SolveFault) -> SolveFault
    ensures { (c : AnyChain) (budget : ℕ) → IsStopped c budget one → IsStopped c budget other → IsStopped c budget result }
{
    if weight_of(&one) < weight_of(&other) {
        other
    } else {
        one
    }
}

/// The more telling one of a refusal and the best one before it.
fn best_of(best: Option<SolveFault>, fault: SolveFault) -> SolveFault
    ensures { (c : AnyChain) (budget : ℕ) → IfSome best (IsStopped c budget) → IsStopped c budget fault → IsStopped c budget result }
{
    match best {
        Some(best) => more_telling(best, fault),
        None => fault,
    }
}

/// The same where the later try may have none.
fn best_with(best: Option<SolveFault>, fault: Option<SolveFault>) -> Option<SolveFault>
    ensures { (c : AnyChain) (budget : ℕ) → IfSome best (IsStopped c budget) → IfSome fault (IsStopped c budget) → IfSome result (IsStopped c budget) }
{
    match fault {
        Some(fault) => Some(best_of(best, fault)),
        None => best,
    }
}

/// The solution of an optimal basis.
fn finished(alloc: Global, chain: &Chain, ending: Ending) -> Result<Solution, Failure>
    requires balanced { IsBalanced chain.now }
    requires ending { (budget : ℕ) × IsEnding chain.now budget ending }
    ensures solution { (budget : ℕ) → IsEnding chain.now budget ending → IfOk result (IsSolution chain.now budget) }
    ensures readable { (budget : ℕ) → IsEnding chain.now budget ending → IsChainInRange chain.now → budget ≤ MAX_PIVOTS → IfOk result (λ s. IsCertificateInRange (certificate_of s)) }
    ensures stopped { (budget : ℕ) → IsEnding chain.now budget ending → IfErr result (λ failure. IsStopped chain.now budget failure.fault) }
{
    let is_forced = are_forced(chain, ending.values.as_slice());
    match solution_of(alloc, chain, ending) {
        Ok(solution) => Ok(solution),
        Err(fault) => Err(Failure { fault, is_forced }),
    }
}

/// A try with candidates of this mode, by at most `budget` pivots.
fn attempt(
    alloc: Global,
    chain: &Chain,
    mode: Option<Mode>,
    budget: u32,
) -> Result<Solution, Failure>
    requires balanced { IsBalanced chain.now }
    requires budget { 0 < budget }
    ensures solution { IfOk result (IsSolution chain.now budget) }
    ensures readable { IsChainInRange chain.now → budget ≤ MAX_PIVOTS → IfOk result (λ s. IsCertificateInRange (certificate_of s)) }
    ensures stopped { IfErr result (λ failure. IsStopped chain.now budget failure.fault) }
{
    match optimal_ending(alloc, chain, mode, budget) {
        Ok(ending) => finished(alloc, chain, ending),
        Err(fault) => Err(Failure {
            fault,
            is_forced: false,
        }),
    }
}

/// How many pivots a try makes at most.
fn most_pivots(wanted: u32, budget: u32) -> u32
    requires { 0 < budget }
    ensures some { 0 < result }
    ensures within { result ≤ budget }
{
    if wanted == 0 {
        1
    } else if wanted < budget {
        wanted
    } else {
        budget
    }
}

/// Whether other tries would end no better.
fn is_final(failure: &Failure) -> bool {
    match &failure.fault {
        SolveFault::Budget { .. } | SolveFault::Memory => true,
        SolveFault::Wide { .. } | SolveFault::Sides { .. } => failure.is_forced,
    }
}

/// What a failure of a try by at most `most` pivots is worth where the budget may have more.
fn refusal_of(failure: Failure, most: u32, budget: u32) -> Refusal
    requires { most ≤ budget }
    ensures { (c : AnyChain) → IsStopped c most failure.fault → IfSome result.fault (IsStopped c budget) }
{
    let is_final = is_final(&failure);
    if most < budget && is_budget(&failure.fault) {
        Refusal {
            fault: None,
            is_final: false,
        }
    } else {
        Refusal {
            fault: Some(failure.fault),
            is_final,
        }
    }
}

/// A try by at most so many pivots as it is worth.
fn planned_try(alloc: Global, chain: &Chain, planned: Try, budget: u32) -> Result<Solution, Refusal>
    requires balanced { IsBalanced chain.now }
    requires budget { 0 < budget }
    ensures solution { IfOk result (IsSolution chain.now budget) }
    ensures readable { IsChainInRange chain.now → budget ≤ MAX_PIVOTS → IfOk result (λ s. IsCertificateInRange (certificate_of s)) }
    ensures stopped { IfErr result (λ refusal. IfSome refusal.fault (IsStopped chain.now budget)) }
{
    let most = most_pivots(planned.pivots, budget);
    match attempt(alloc, chain, planned.mode, most) {
        Ok(solution) => Ok(solution),
        Err(failure) => Err(refusal_of(failure, most, budget)),
    }
}

/// One try after another, until one has a solution or another would be in vain.
fn planned_tries(
    alloc: Global,
    chain: &Chain,
    planned: &[Try],
    budget: u32,
) -> Result<Solution, Refusal>
    requires balanced { IsBalanced chain.now }
    requires budget { 0 < budget }
    ensures solution { IfOk result (IsSolution chain.now budget) }
    ensures readable { IsChainInRange chain.now → budget ≤ MAX_PIVOTS → IfOk result (λ s. IsCertificateInRange (certificate_of s)) }
    ensures stopped { IfErr result (λ refusal. IfSome refusal.fault (IsStopped chain.now budget)) }
{
    let mut best = None;
    for planned in planned {
        match planned_try(alloc, chain, *planned, budget) {
            Ok(solution) => return Ok(solution),
            Err(refusal) => {
                best = best_with(best, refusal.fault);
                if refusal.is_final {
                    return Err(Refusal {
                        fault: best,
                        is_final: true,
                    });
                }
            }
        }
    }
    Err(Refusal {
        fault: best,
        is_final: false,
    })
}

/// A try of the whole budget, after others.
fn last_try(
    alloc: Global,
    chain: &Chain,
    best: Option<SolveFault>,
    budget: u32,
) -> Result<Solution, SolveFault>
    requires balanced { IsBalanced chain.now }
    requires budget { 0 < budget }
    requires best { IfSome best (IsStopped chain.now budget) }
    ensures solution { IfOk result (IsSolution chain.now budget) }
    ensures readable { IsChainInRange chain.now → budget ≤ MAX_PIVOTS → IfOk result (λ s. IsCertificateInRange (certificate_of s)) }
    ensures stopped { IfErr result (IsStopped chain.now budget) }
{
    match attempt(alloc, chain, Some(Mode::Surface), budget) {
        Ok(solution) => Ok(solution),
        Err(failure) => Err(best_of(best, failure.fault)),
    }
}

/// What comes of a refusal of the planned tries: it is the answer where it is final or tells of too many sides.
fn after_tries(
    alloc: Global,
    chain: &Chain,
    refusal: Refusal,
    budget: u32,
) -> Result<Solution, SolveFault>
    requires balanced { IsBalanced chain.now }
    requires budget { 0 < budget }
    requires refusal { IfSome refusal.fault (IsStopped chain.now budget) }
    ensures solution { IfOk result (IsSolution chain.now budget) }
    ensures readable { IsChainInRange chain.now → budget ≤ MAX_PIVOTS → IfOk result (λ s. IsCertificateInRange (certificate_of s)) }
    ensures stopped { IfErr result (IsStopped chain.now budget) }
{
    let Refusal { fault, is_final } = refusal;
    match fault {
        Some(fault) => {
            if is_final || matches!(&fault, SolveFault::Sides { .. }) {
                Err(fault)
            } else {
                last_try(alloc, chain, Some(fault), budget)
            }
        }
        None => last_try(alloc, chain, None, budget),
    }
}

/// The tries that suit a chain.
fn plan_of(alloc: Global, chain: &Chain) -> Result<Vec<Try>, AllocError> {
    let pairs = Pairs::of(alloc, chain)?;
    tries(alloc, chain, pairs.count().saturating_add(chain.words()))
}

/// An extremal surface of a balanced chain, by tries of at most `budget` pivots each.
pub(crate) fn solved(alloc: Global, chain: &Chain, budget: u32) -> Result<Solution, SolveFault>
    requires balanced { IsBalanced chain.now }
    requires budget { 0 < budget }
    ensures solution { IfOk result (IsSolution chain.now budget) }
    ensures readable { IsChainInRange chain.now → budget ≤ MAX_PIVOTS → IfOk result (λ s. IsCertificateInRange (certificate_of s)) }
    ensures stopped { IfErr result (IsStopped chain.now budget) }
{
    let planned = plan_of(alloc, chain)?;
    match planned_tries(alloc, chain, planned.as_slice(), budget) {
        Ok(solution) => Ok(solution),
        Err(refusal) => after_tries(alloc, chain, refusal, budget),
    }
}
