//! Runs the simplex over lists of columns, and prints what it answers.
#![tactic(auto)]

ghost use Rattle.std.specs.Prelude.{◌<◌};

mod cases;
mod listed;
mod listing;
mod problem;
mod rises;

use crate::cases::{ONE_COLUMN, TWO_COLUMNS, WAYS};
use crate::listed::Listed;
use crate::problem::Problem;
use sc_fraction::Frac;
use sc_simplex::{Optimum, SimplexFault, solve};
use std::alloc::{AllocError, Global};
use std::io;

/// What the simplex answers, and whether the rise value grew at each pivot.
#[derive(Drop)]
struct Answered {
    answer: Result<Optimum, SimplexFault>,
    rose: bool,
}

fn answer_to(
    alloc: Global,
    problem: &Problem,
    budget: u32,
    stride: usize,
) -> Result<Answered, AllocError>
    requires { 0 < budget }
{
    let rhs = Vec::from_slice(alloc, problem.rhs)?;
    let mut oracle = Listed::new(alloc, problem, stride);
    let answer = solve(alloc, &rhs, &mut oracle, budget);
    Ok(Answered {
        answer,
        rose: oracle.rose(),
    })
}

/// The sum of whole values.
fn sum_of(values: &[Frac]) -> Option<i128> {
    let mut sum = 0_i128;
    for value in values {
        if value.den() != 1 {
            return None;
        }
        sum = sum.checked_add(value.num())?;
    }
    Some(sum)
}

/// All of an answer.
fn text_of(alloc: Global, answered: Answered) -> Result<String, AllocError> {
    let rose = answered.rose;
    match answered.answer {
        Ok(optimum) => format!(in alloc;
            "optimal: {:?}\n{:?}\n{:?}\n{:?}\n{:?}\ncolumns {}, rose {rose}",
            optimum.journal,
            optimum.basis,
            optimum.values,
            optimum.prices.bulk,
            optimum.prices.fine,
            optimum.columns.len()
        ),
        Err(SimplexFault::Budget { journal, column }) => {
            format!(in alloc; "used up: {journal:?}\n{column:?}\nrose {rose}")
        }
        Err(SimplexFault::Wide { journal, at }) => format!(in alloc; "wide: {journal:?}\n{at:?}"),
        Err(SimplexFault::Memory) => Err(AllocError),
    }
}

/// The sum of an answer's values.
fn sum_text(alloc: Global, answered: Answered) -> Result<String, AllocError> {
    let rose = answered.rose;
    match answered.answer {
        Ok(optimum) => {
            let sum = sum_of(optimum.values.as_slice());
            format!(in alloc; "optimal: the values sum to {sum:?}, rose {rose}")
        }
        Err(_) => format!(in alloc; "not optimal"),
    }
}

fn main(rt: HostRuntime) -> io::Result<()> {
    let alloc = rt.alloc();
    println!(rt; "{}", text_of(alloc, answer_to(alloc, &ONE_COLUMN, 5, 0)?)?)?;
    for (budget, stride) in [(1, 0), (2, 0), (2, 1)] {
        println!(rt;
            "{}",
            text_of(alloc, answer_to(alloc, &TWO_COLUMNS, budget, stride)?)?
        )?;
    }
    for stride in [0, 7] {
        println!(rt;
            "{}",
            sum_text(alloc, answer_to(alloc, &WAYS, 1000, stride)?)?
        )?;
    }
    Ok(())
}
