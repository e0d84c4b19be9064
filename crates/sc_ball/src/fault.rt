//! Why two chains have no answer.

use sc_cone::Direction;
use sc_crossing::{CrossPlace, Reached};
use sc_fraction::Frac;
use sc_solve::SolveFault;
use std::alloc::AllocError;

/// Why the ball of two chains has no answer. The search is that of the quadrant in which the fault came: directions in
/// the order of turning left, each with a list that is tight there.
#[derive(Debug, Drop)]
pub enum BallFault {
    /// A direction isn't solved.
    Solve {
        /// The search so far. It is empty where the direction is an end of the quadrant.
        search: Vec<Reached>,
        /// Whether the quadrant is the lower one.
        lower: bool,
        /// The direction.
        direction: Direction,
        /// Why its chain has no answer: for the budget, a number that is too wide, or too many sides.
        fault: SolveFault,
    },
    /// The next direction between two neighbours is at a crossing that passes 128 bits.
    Cross {
        /// The search so far.
        search: Vec<Reached>,
        /// The direction of the first of the two.
        from: Direction,
        /// The direction of the second.
        to: Direction,
        /// The operation.
        place: CrossPlace,
        /// Its first fraction.
        x: Frac,
        /// Its second fraction.
        y: Frac,
    },
    /// The chain of the next direction `s`, `t` between two neighbours has a weighted length over 2^20.
    Length {
        /// The search so far.
        search: Vec<Reached>,
        /// The direction of the first of the two.
        from: Direction,
        /// The direction of the second.
        to: Direction,
        /// How many times the first chain is taken there.
        s: i128,
        /// How many times the second, negative in the lower quadrant.
        t: i128,
    },
    /// There was no memory.
    Memory,
}

impl From<AllocError> for BallFault {
    ghost use Rattle.std.specs.Prelude.{◌≡◌};
    ghost use Rattle.sc_ball.specs.declared.fault.BallFault.TheVariants as faults;

    ghost from_gives = { λ _ fault. fault ≡ faults.Memory };

    fn from(_: AllocError) -> Self {
        BallFault::Memory
    }
}
