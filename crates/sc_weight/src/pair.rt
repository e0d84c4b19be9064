//! Weights of two levels.
use crate::level::{add_at, sub_at};
use crate::{Level, Weight, WideLevel};
use std::cmp::Ordering;

/// A weight of two numbers, ordered by bulk, and then by fine: `compare` is its order.
#[derive(Clone, Copy, Debug, PartialEq, Eq)]
pub struct Pair {
    /// The level that counts first.
    pub bulk: i128,
    /// The level that decides between weights of one bulk.
    pub fine: i128,
}

impl Weight for Pair {
    ghost levels = { λ p. record { bulk = p.bulk; fine = p.fine } };

    ghost same_levels = { λ x y e i. record { bulk = (e i).bulk; fine = (e i).fine } };

    fn zero() -> Pair {
        Pair { bulk: 0, fine: 0 }
    }

    fn plus(&self, other: &Pair) -> Result<Pair, WideLevel> {
        let bulk = add_at(Level::Bulk, self.bulk, other.bulk)?;
        let fine = add_at(Level::Fine, self.fine, other.fine)?;
        Ok(Pair { bulk, fine })
    }

    fn minus(&self, other: &Pair) -> Result<Pair, WideLevel> {
        let bulk = sub_at(Level::Bulk, self.bulk, other.bulk)?;
        let fine = sub_at(Level::Fine, self.fine, other.fine)?;
        Ok(Pair { bulk, fine })
    }

    fn compare(&self, other: &Pair) -> Ordering {
        self.bulk.cmp(&other.bulk).then(self.fine.cmp(&other.fine))
    }
}
