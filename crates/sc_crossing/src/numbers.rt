//! The numbers of a price list's form.

ghost use Rattle.std.specs.Prelude.{◌≡◌, ◌*◌, ◌≤◌};
ghost use Rattle.sc_theory.specs.Chains.{weighted_length};
ghost use Rattle.sc_chain.specs.declared.limits.TheConstants.{MAX_WORDS};
ghost use Rattle.sc_certificate.specs.Bounds.{IsWithinPrices};
ghost use Rattle.sc_crossing.specs.inside.Sizes.{form_from};

use sc_certificate::{PriceList, bound_from};
use sc_chain::Chain;

/// What the words of a chain give a list's value each time that they are taken, by the unit of 4 times the scale.
pub(crate) fn form_number(chain: &Chain, list: &PriceList, from: usize) -> i128
    requires { from ≤ MAX_WORDS }
    ensures number { result ≡ form_from chain.now list.now from }
    ensures small { IsWithinPrices (3 * weighted_length chain.now) result }
{
    list.scale() * i128::from(chain.length()) - 2 * bound_from(chain, list, from)
}
