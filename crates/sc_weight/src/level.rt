//! The levels of a weight, and the evidence that one of them is too wide.
ghost use Rattle.std.specs.Prelude.{◌≡◌, ◌+ℤ◌, ◌-ℤ◌, FitsSigned, OkIff, IfErr};
ghost use Rattle.std.specs.Int.{w128};
ghost use Rattle.sc_whole.specs.Operation.{step};

use sc_whole::{Op, Wide};
use std::fmt;

/// A level of a weight. Bulk counts before fine.
#[derive(Clone, Copy, Debug, PartialEq, Eq)]
pub enum Level {
    /// The first level, which decides the order.
    Bulk,
    /// The second level, which decides between weights of one bulk.
    Fine,
}

/// The evidence that an exact sum or difference is too wide: the first such level, and the operation on its numbers.
#[derive(Clone, Copy, Debug, PartialEq, Eq)]
pub struct WideLevel {
    /// The level, bulk before fine.
    pub level: Level,
    /// The operation and its operands at that level.
    pub wide: Wide,
}

/// The sum of the numbers at a level.
pub(crate) fn add_at(level: Level, x: i128, y: i128) -> Result<i128, WideLevel>
    ensures exact { OkIff result (FitsSigned w128 (x +ℤ y)) (x +ℤ y) }
    ensures evidence { IfErr result (λ w. w ≡ record { level = level; wide = step Op.Add x y }) }
{
    sc_whole::add(x, y).map_err(|wide| WideLevel { level, wide })
}

/// The difference of the numbers at a level.
pub(crate) fn sub_at(level: Level, x: i128, y: i128) -> Result<i128, WideLevel>
    ensures exact { OkIff result (FitsSigned w128 (x -ℤ y)) (x -ℤ y) }
    ensures evidence { IfErr result (λ w. w ≡ record { level = level; wide = step Op.Sub x y }) }
{
    sc_whole::sub(x, y).map_err(|wide| WideLevel { level, wide })
}

impl fmt::Display for Level {
    fn fmt<W: fmt::Write>(&self, f: &mut fmt::Formatter<W>) -> fmt::Result {
        f.write_str(match self {
            Level::Bulk => "bulk",
            Level::Fine => "fine",
        })
    }
}

impl fmt::Display for WideLevel {
    fn fmt<W: fmt::Write>(&self, f: &mut fmt::Formatter<W>) -> fmt::Result {
        write!(f, "{}: {}", self.level, self.wide)
    }
}

impl std::error::Error for WideLevel {}
