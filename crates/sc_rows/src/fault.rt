//! Why rows and prices are refused.

use sc_weight::Level;
use sc_whole::Wide;
use std::alloc::{AllocError, AllocFailed};

/// Where an operation on whole numbers stands in the solver. Its indices are told beside it, in the order given here.
#[derive(Clone, Copy, Debug, PartialEq, Eq)]
pub enum Place {
    /// 0 minus a price: the index of the price.
    TurnPrice {
        /// The level of the price.
        level: Level,
    },
    /// The price of a step, from the prices of a pair and of a word: where the step begins and where it ends.
    StepPrice {
        /// The level of the price.
        level: Level,
    },
    /// The total of a walk without its last step, plus the price of that step: no index.
    WalkSum {
        /// The level of the total.
        level: Level,
    },
    /// An entry of a row times that of the entering column: the row and the index.
    AlongMul,
    /// The sum of such products before the index, plus that at the index: the row and the index.
    AlongAdd,
    /// An entry of a row times that of the right side: the row and the index.
    ValueMul,
    /// The sum of such products before the index, plus that at the index: the row and the index.
    ValueAdd,
    /// An entry of a row times the ratio's denominator: the row and the index.
    RowLeft,
    /// The ratio's numerator times an entry of the new leaving row: the row and the index.
    RowRight,
    /// The first of these products minus the second: the row and the index.
    RowMinus,
    /// A row's denominator times the ratio's: the row.
    RowScale,
    /// A price times the entry of the entering column: the index.
    GapMul {
        /// The level of the price.
        level: Level,
    },
    /// The sum of such products before the index, plus that at the index: the index.
    GapAdd {
        /// The level of the price.
        level: Level,
    },
    /// The column's own cost, times the scale, minus its price: no index.
    GapMinus {
        /// The level of the price.
        level: Level,
    },
    /// A price times the ratio's denominator: the index.
    PriceLeft {
        /// The level of the price.
        level: Level,
    },
    /// The ratio's numerator times an entry of the new leaving row: the index.
    PriceRight {
        /// The level of the price.
        level: Level,
    },
    /// The sum of these two products: the index.
    PriceAdd {
        /// The level of the price.
        level: Level,
    },
    /// A price list's scale times the ratio's denominator: no index.
    PriceScale {
        /// The level of the price.
        level: Level,
    },
    /// 0 minus the fine price of a step: where the step begins and where it ends.
    LiftTurn,
    /// The number of positions times the greatest size of a fine step price: no index.
    LiftMul,
    /// The fine scale plus that product: no index.
    LiftAdd,
    /// The lift's factor times a bulk price: the index.
    LiftBulk,
    /// A fine price plus that product: the index.
    LiftSum,
    /// A lifted number against the limit of its size: its index, or the number of rows for the scale.
    LiftSize,
}

/// An operation on whole numbers whose exact result is too wide.
#[derive(Debug, PartialEq, Eq, Drop)]
pub struct WideAt {
    /// Which operation it is.
    pub place: Place,
    /// The place's first index, or 0 where it has none.
    pub first: u32,
    /// The place's second index, or 0 where it has fewer.
    pub second: u32,
    /// The operation with its operands.
    pub wide: Wide,
    /// The walk whose total it is, where the place has one.
    pub walk: Option<Vec<u32>>,
    /// The key of the entering column, where the place has one.
    pub entering: Option<Vec<u32>>,
    /// The leaving row, where the place has one.
    pub leaving: Option<u32>,
}

/// Why a call on rows or prices is refused.
#[derive(Debug, PartialEq, Eq, Drop)]
pub enum RowFault {
    /// An exact result is too wide.
    Wide(WideAt),
    /// There was no memory.
    Memory,
}

impl From<WideAt> for RowFault {
    ghost use Rattle.sc_rows.specs.declared.fault.RowFault.TheVariants as faults;
    ghost use Rattle.std.specs.Prelude.{◌≡◌};

    ghost from_gives = { λ at fault. fault ≡ faults.Wide at };

    fn from(at: WideAt) -> RowFault {
        RowFault::Wide(at)
    }
}

impl From<AllocError> for RowFault {
    ghost use Rattle.sc_rows.specs.declared.fault.RowFault.TheVariants as faults;
    ghost use Rattle.std.specs.Prelude.{◌≡◌};

    ghost from_gives = { λ _ fault. fault ≡ faults.Memory };

    fn from(_: AllocError) -> RowFault {
        RowFault::Memory
    }
}

impl<T: Drop> From<AllocFailed<T>> for RowFault {
    ghost use Rattle.sc_rows.specs.declared.fault.RowFault.TheVariants as faults;
    ghost use Rattle.std.specs.Prelude.{◌≡◌};

    ghost from_gives = { λ _ fault. fault ≡ faults.Memory };

    fn from(_: AllocFailed<T>) -> RowFault {
        RowFault::Memory
    }
}
