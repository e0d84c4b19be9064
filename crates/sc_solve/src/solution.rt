//! What a chain is answered: an extremal surface, or why there is none.

use sc_assembly::Part;
use sc_certificate::{PriceList, Tables};
use sc_chain::{Pivot, Polygon};
use sc_fatgraph::Fatgraph;
use sc_fraction::Frac;
use sc_rows::WideAt;
use std::alloc::AllocError;

/// An extremal surface of a chain, with what shows that no other costs less.
#[derive(Debug, Drop)]
pub struct Solution {
    /// How many copies of the chain the boundary runs along, from 1 to 2^20.
    pub n: u32,
    /// The surface: it is glued of the polygons of the last basis.
    pub fatgraph: Fatgraph,
    /// The lift of the prices of the last basis.
    pub list: PriceList,
    /// The least totals of walks at the list's prices, which vouch for the list.
    pub tables: Tables,
    /// The pivots that led to the last basis, in their order.
    pub journal: Vec<Pivot>,
    /// Minus the Euler number of the surface, over twice the number of copies.
    pub value: Frac,
    /// How many different polygons the journal has.
    pub columns: u32,
}

/// Why a chain has no answer. The journal is always the one whose last basis the evidence is about.
#[derive(Debug, Drop)]
pub enum SolveFault {
    /// All pivots of the budget are made.
    Budget {
        /// As many pivots as the budget says.
        journal: Vec<Pivot>,
        /// A polygon that improves the last basis.
        improving: Polygon,
    },
    /// A whole number is too wide.
    Wide {
        /// The pivots before.
        journal: Vec<Pivot>,
        /// The operation with its operands.
        at: WideAt,
    },
    /// The surface of the optimal basis has more than 2^20 sides.
    Sides {
        /// The pivots to the optimal basis.
        journal: Vec<Pivot>,
        /// The first part of that basis whose denominator leads there.
        part: Part,
        /// The least common multiple of the denominators of the parts before it, at least 1.
        so_far: u32,
        /// The denominator of that part, at least 1.
        next: i128,
    },
    /// There was no memory.
    Memory,
}

impl From<AllocError> for SolveFault {
    ghost use Rattle.std.specs.Prelude.{◌≡◌};
    ghost use Rattle.sc_solve.specs.declared.solution.SolveFault.TheVariants as faults;

    ghost from_gives = { λ _ fault. fault ≡ faults.Memory };

    fn from(_: AllocError) -> Self {
        SolveFault::Memory
    }
}
