//! Whether a price list is tight.

ghost use Rattle.std.specs.Prelude.{◌≡◌, ◌↔◌, length, IsTrue, pos, ◌*ℤ◌};
ghost use Rattle.sc_theory.specs.Chains.{weighted_length};
ghost use Rattle.sc_theory.specs.Prices.{bound};
ghost use Rattle.sc_prices.specs.Sizes.{AreVertices};
ghost use Rattle.sc_prices.specs.inside.Sizes.{IsOfPrices};

use sc_certificate::{PriceList, bound_from};
use sc_chain::Chain;
use sc_fatgraph::Counts;

/// The sum of weight times base price over the words.
fn bound(list: &PriceList, chain: &Chain) -> i128
    requires { length list.now.base ≡ length chain.now }
    ensures bound { result ≡ bound chain.now list.now }
    ensures small { IsOfPrices (weighted_length chain.now) result }
{
    bound_from(chain, list, 0)
}

/// Whether the scale times the vertices is the copies times the bound.
pub fn tight(list: &PriceList, chain: &Chain, counts: &Counts, n: u32) -> bool
    requires sizes { length list.now.base ≡ length chain.now }
    requires counts { AreVertices chain.now n counts.now.vertices }
    ensures { IsTrue result ↔ (list.now.scale *ℤ pos counts.now.vertices ≡ pos n *ℤ bound chain.now list.now) }
{
    list.scale() * i128::from(counts.vertices) == i128::from(n) * bound(list, chain)
}
