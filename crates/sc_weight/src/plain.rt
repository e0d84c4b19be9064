//! Weights of one level.
ghost use Rattle.std.specs.Prelude.{pos};

use crate::level::{add_at, sub_at};
use crate::{Level, Weight, WideLevel};
use std::cmp::Ordering;

/// A weight of one number, which is its fine level; its bulk is 0. `compare` is its order.
#[derive(Clone, Copy, Debug, PartialEq, Eq)]
pub struct Plain(pub i128);

impl Weight for Plain {
    ghost levels = { λ p. record { bulk = pos 0; fine = p.0 } };

    ghost same_levels = { λ x y e i. record { 0 = (e i).fine } };

    fn zero() -> Plain {
        Plain(0)
    }

    fn plus(&self, other: &Plain) -> Result<Plain, WideLevel> {
        Ok(Plain(add_at(Level::Fine, self.0, other.0)?))
    }

    fn minus(&self, other: &Plain) -> Result<Plain, WideLevel> {
        Ok(Plain(sub_at(Level::Fine, self.0, other.0)?))
    }

    fn compare(&self, other: &Plain) -> Ordering {
        self.0.cmp(&other.0)
    }
}
