//! Sums, differences and products that are exact, or that name the operands which led out of 128 bits.
ghost use Rattle.std.specs.Prelude.{◌≡◌, ◌+ℤ◌, ◌-ℤ◌, ◌*ℤ◌, FitsSigned, OkIff, IfErr};
ghost use Rattle.std.specs.Int.{w128};
ghost use Rattle.sc_whole.specs.Operation.{step};

use std::fmt;

/// An operation on whole numbers.
#[derive(Clone, Copy, Debug, PartialEq, Eq)]
pub enum Op {
    /// The sum of two numbers.
    Add,
    /// The first number minus the second.
    Sub,
    /// The product of two numbers.
    Mul,
    /// The size of one number against a limit that is narrower than 128 bits.
    Size,
}

/// The evidence that a result is too wide: the operation and its operands. The exact result lies outside `i128`,
/// or for `Size` outside the limit of the caller.
#[derive(Clone, Copy, Debug, PartialEq, Eq)]
pub struct Wide {
    /// What was to be computed.
    pub op: Op,
    /// The first operand.
    pub x: i128,
    /// The second operand.
    pub y: i128,
}

impl fmt::Display for Op {
    fn fmt<W: fmt::Write>(&self, f: &mut fmt::Formatter<W>) -> fmt::Result {
        f.write_str(match self {
            Op::Add => "sum",
            Op::Sub => "difference",
            Op::Mul => "product",
            Op::Size => "size",
        })
    }
}

impl fmt::Display for Wide {
    fn fmt<W: fmt::Write>(&self, f: &mut fmt::Formatter<W>) -> fmt::Result {
        write!(
            f,
            "the {} of {} and {} is too wide",
            self.op, self.x, self.y
        )
    }
}

impl std::error::Error for Wide {}

/// `x + y`, or these operands where the sum is outside `i128`.
pub fn add(x: i128, y: i128) -> Result<i128, Wide>
    ensures exact { OkIff result (FitsSigned w128 (x +ℤ y)) (x +ℤ y) }
    ensures evidence { IfErr result (λ w. w ≡ step Op.Add x y) }
{
    x.checked_add(y).ok_or(Wide { op: Op::Add, x, y })
}

/// `x - y`, or these operands where the difference is outside `i128`.
pub fn sub(x: i128, y: i128) -> Result<i128, Wide>
    ensures exact { OkIff result (FitsSigned w128 (x -ℤ y)) (x -ℤ y) }
    ensures evidence { IfErr result (λ w. w ≡ step Op.Sub x y) }
{
    x.checked_sub(y).ok_or(Wide { op: Op::Sub, x, y })
}

/// `x * y`, or these operands where the product is outside `i128`.
pub fn mul(x: i128, y: i128) -> Result<i128, Wide>
    ensures exact { OkIff result (FitsSigned w128 (x *ℤ y)) (x *ℤ y) }
    ensures evidence { IfErr result (λ w. w ≡ step Op.Mul x y) }
{
    x.checked_mul(y).ok_or(Wide { op: Op::Mul, x, y })
}
