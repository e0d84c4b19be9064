//! The whole-number operations of fraction arithmetic, in the order in which they may refuse.
ghost use Rattle.std.specs.Prelude.{◌≡◌, [], ◌∷◌, ◌*ℤ◌, FitsSigned, IfOk, IfErr, OnOk, OkIff};
ghost use Rattle.std.specs.Int.{w128};
ghost use Rattle.sc_whole.specs.Operation.{step, exact_result, AllFit, IsFirstWide};
ghost use Rattle.sc_fraction.specs.Steps.{turn, turn_steps, scaled_sum_steps};

use sc_whole::{Op, Wide, add, mul, sub};

/// The two numbers of `p / q`, turned where `q` is below 0.
pub(crate) fn turned(p: i128, q: i128) -> Result<(i128, i128), Wide>
    ensures value { IfOk result (λ r. r ≡ (turn q p, turn q q)) }
    ensures fits { OnOk result (AllFit (turn_steps p q)) }
    ensures evidence { IfErr result (IsFirstWide (turn_steps p q)) }
{
    if q < 0 {
        Ok((sub(0, p)?, sub(0, q)?))
    } else {
        Ok((p, q))
    }
}

/// The sum or difference of `a` and `c`, each times its own scale, and the product of `b` and the first scale.
pub(crate) fn scaled_sum(
    op: Op,
    a: i128,
    b: i128,
    c: i128,
    scale: i128,
    other_scale: i128,
) -> Result<(i128, i128), Wide>
    ensures value { IfOk result (λ r. r ≡ (exact_result op (a *ℤ scale) (c *ℤ other_scale), b *ℤ scale)) }
    ensures fits { OnOk result (AllFit (scaled_sum_steps op a b c scale other_scale)) }
    ensures evidence { IfErr result (IsFirstWide (scaled_sum_steps op a b c scale other_scale)) }
{
    let own = mul(a, scale)?;
    let other = mul(c, other_scale)?;
    let sum = compute(op, own, other)?;
    Ok((sum, mul(b, scale)?))
}

/// The products of `p` and `q`, and of `r` and `s`.
pub(crate) fn products(p: i128, q: i128, r: i128, s: i128) -> Result<(i128, i128), Wide>
    ensures value { IfOk result (λ x. x ≡ (p *ℤ q, r *ℤ s)) }
    ensures fits { OnOk result (AllFit (step Op.Mul p q ∷ step Op.Mul r s ∷ [])) }
    ensures evidence { IfErr result (IsFirstWide (step Op.Mul p q ∷ step Op.Mul r s ∷ [])) }
{
    Ok((mul(p, q)?, mul(r, s)?))
}

fn compute(op: Op, x: i128, y: i128) -> Result<i128, Wide>
    ensures exact { OkIff result (FitsSigned w128 (exact_result op x y)) (exact_result op x y) }
    ensures evidence { IfErr result (λ w. w ≡ step op x y) }
{
    match op {
        Op::Add => add(x, y),
        Op::Sub => sub(x, y),
        Op::Mul => mul(x, y),
        Op::Size => Ok(x),
    }
}
