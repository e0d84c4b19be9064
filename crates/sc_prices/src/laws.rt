//! Laws of the conditions of certificates.

ghost use Rattle.std.specs.Prelude.{◌≡◌, ◌↔◌, ℤ, pos, ◌<ℤ◌};
ghost use Rattle.sc_theory.specs.Chains.{Chain, IsChain};
ghost use Rattle.sc_theory.specs.Fatgraphs.{IsLeast};
ghost use Rattle.sc_theory.specs.Prices.{Prices, Tables, Vouch};
ghost use Rattle.sc_certificate.specs.Certificates.{Certificate};
ghost use Rattle.sc_prices.specs.declared.flaws.TableFlaw.{TableFlaw};
ghost use Rattle.sc_prices.specs.declared.verdict.Condition.{Condition};
ghost use Rattle.sc_prices.specs.Flaws.{HasTableFlaw, IsFirstTableFlaw};
ghost use Rattle.sc_prices.specs.Conditions.{AllHold, IsFirstFailing};

/// Tables have no flaw exactly where they vouch for the list.
pub fn tables_without_flaw()
    ensures { (c : Chain) (list : Prices) (tables : Tables) → ((flaw : TableFlaw) → ¬ HasTableFlaw c list tables flaw) ↔ Vouch c list tables }
{}

/// At most one flaw is the first.
pub fn one_first_table_flaw()
    ensures { (c : Chain) (list : Prices) (tables : Tables) (flaw other : TableFlaw) →
        IsFirstTableFlaw c list tables flaw → IsFirstTableFlaw c list tables other → flaw ≡ other }
{}

/// At most one condition is the first that fails, and none where all hold.
pub fn one_first_failing()
    ensures one { (v : Certificate) (condition other : Condition) → IsFirstFailing v condition → IsFirstFailing v other → condition ≡ other }
    ensures none { (v : Certificate) (condition : Condition) → IsFirstFailing v condition → ¬ AllHold v }
{}

/// Where all conditions of a certificate hold, its fatgraph is least over its chain.
pub fn conditions_make_least()
    ensures { (v : Certificate) → IsChain v.chain → pos 0 <ℤ v.list.scale → AllHold v → IsLeast v.chain v.copies v.sides }
{}
