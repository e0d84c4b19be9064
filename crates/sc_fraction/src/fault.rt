//! Why there is no fraction.
ghost use Rattle.std.specs.Prelude.{◌≡◌};
ghost use Rattle.sc_fraction.specs.declared.fault.FracFault.TheVariants as fault;

use sc_whole::Wide as WideNumber;
use thiserror::Error;

/// Why a quotient is no fraction.
#[derive(Clone, Copy, Debug, PartialEq, Eq, Error)]
pub enum FracFault {
    /// The denominator, or the divisor, is 0.
    #[error("a quotient by zero")]
    Zero,
    /// A whole number on the way is outside `i128`; the operation that leads out first, with its operands.
    #[error(transparent)]
    Wide(WideNumber),
}

impl From<WideNumber> for FracFault {
    ghost from_gives = { λ w f. f ≡ fault.Wide w };

    fn from(wide: WideNumber) -> FracFault {
        FracFault::Wide(wide)
    }
}
