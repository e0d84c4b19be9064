//! The answers of conditions that fail.

ghost use Rattle.std.specs.Prelude.{◌≡◌, ◌++◌, IfOk, OnOk};
ghost use Rattle.sc_prices.specs.declared.verdict.Condition.TheVariants as conditions;
ghost use Rattle.sc_app.specs.declared.status.Status.TheVariants as statuses;
ghost use Rattle.sc_app.specs.Rejections.{flaw_label, rejection};
ghost use Rattle.sc_app.specs.Answer.{status_of, text_of};

use crate::answer::Answer;
use sc_fatgraph::FlawKind;
use sc_prices::{Condition, TableFlaw};
use sc_text::{Field, print_line};
use std::alloc::{AllocError, Global};

/// How the line of a kind of flaw begins.
fn flaw_label(kind: FlawKind) -> &'static [u8]
    ensures { result.now ≡ flaw_label kind }
{
    match kind {
        FlawKind::Range => b"rejected range",
        FlawKind::Mate => b"rejected mate",
        FlawKind::Letter => b"rejected letter",
        FlawKind::Next => b"rejected next",
        FlawKind::Label => b"rejected label",
        FlawKind::Count => b"rejected count",
    }
}

/// Appends the line of a flaw of tables.
fn print_table_flaw(flaw: TableFlaw, out: &mut Vec<u8>) -> Result<(), AllocError>
    ensures { OnOk result (out.new.items ≡ out.old.items ++ rejection (conditions.Table flaw)) }
{
    match flaw {
        TableFlaw::Start { start } => {
            print_line(b"rejected table", &[Field::Numbers(&[start])], out)
        }
        TableFlaw::Step { start, from, to } => {
            print_line(
                b"rejected table",
                &[Field::Numbers(&[start, from, to])],
                out,
            )
        }
    }
}

/// Appends the line of a condition that fails.
fn print_rejection(condition: Condition, out: &mut Vec<u8>) -> Result<(), AllocError>
    ensures { OnOk result (out.new.items ≡ out.old.items ++ rejection condition) }
{
    match condition {
        Condition::Flaw { kind, place } => {
            print_line(flaw_label(kind), &[Field::Number(i128::from(place))], out)
        }
        Condition::Value => print_line(b"rejected value", &[], out),
        Condition::Table(flaw) => print_table_flaw(flaw, out),
        Condition::NotTight => print_line(b"rejected tight", &[], out),
    }
}

/// The answer of a condition that fails.
pub fn rejected(alloc: Global, condition: Condition) -> Result<Answer, AllocError>
    ensures status { IfOk result (λ answer. status_of answer ≡ statuses.Rejected condition) }
    ensures text { IfOk result (λ answer. text_of answer ≡ rejection condition) }
{
    let mut text = Vec::new(alloc);
    print_rejection(condition, &mut text)?;
    Ok(Answer::Rejection { condition, text })
}
