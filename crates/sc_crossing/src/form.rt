//! The form of a price list, as two fractions.

ghost use Rattle.std.specs.Prelude.{◌≤◌, pos, ◌<ℤ◌};
ghost use Rattle.sc_fraction.specs.Frac.{IsQuotient};
ghost use Rattle.sc_chain.specs.declared.limits.TheConstants.{MAX_WORDS};
ghost use Rattle.sc_crossing.specs.inside.Sizes.{form_from};
ghost use Rattle.sc_crossing.specs.Forms.{IsFormOf};

use crate::numbers::form_number;
use sc_certificate::PriceList;
use sc_chain::Chain;
use sc_fraction::Frac;

/// The form of a price list: four times what each of two chains adds to the list's value each time that it is taken.
#[derive(Clone, Copy, Debug, PartialEq, Eq)]
pub struct Form {
    /// What the first chain adds.
    pub first: Frac,
    /// What the second chain adds.
    pub second: Frac,
}

/// A quotient by a number above 0, in lowest terms.
fn fraction(num: i128, den: i128) -> Frac
    requires { pos 0 <ℤ den }
    ensures { IsQuotient num den result }
{
    match Frac::new(num, den) {
        Ok(fraction) => fraction,
        // The number below is above 0: it isn't 0, and no sign is turned, which alone might not fit.
        Err(_) => unreachable!(),
    }
}

/// What the words of a chain give a list's value each time that they are taken, times 4. The first of them is the word
/// number `from` of the list.
fn form_part(chain: &Chain, list: &PriceList, from: usize) -> Frac
    requires { from ≤ MAX_WORDS }
    ensures { IsQuotient (form_from chain.now list.now from) list.now.scale result }
{
    fraction(form_number(chain, list, from), list.scale())
}

/// The form of a price list of two chains, whose words have their prices in this order.
pub fn form_of(first: &Chain, second: &Chain, list: &PriceList) -> Form
    ensures { IsFormOf first.now second.now list.now result }
{
    Form {
        first: form_part(first, list, 0),
        second: form_part(second, list, first.words()),
    }
}
