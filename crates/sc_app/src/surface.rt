//! The command `surface`.

ghost use Rattle.std.specs.Prelude.{◌≡◌, ◌++◌, ◌∷◌, [], IfOk, OnOk};
ghost use Rattle.sc_fraction.specs.Frac.{frac_text};
ghost use Rattle.sc_line.specs.Lines.{ended, numbers_line};
ghost use Rattle.sc_app.specs.Notes.{line};
ghost use Rattle.sc_app.specs.Answer.{status_of, text_of};
ghost use Rattle.sc_app.specs.Surface.{SurfaceResponds, IsReport, fraction_label};

use crate::answer::Answer;
use crate::said::{Said, read_fatgraph};
use sc_fatgraph::{Fatgraph, fraction};
use sc_fraction::Frac;
use sc_text::{Field, print_line};
use std::alloc::{AllocError, Global};

fn print_number_line(name: &[u8], number: i128, out: &mut Vec<u8>) -> Result<(), AllocError>
    ensures { OnOk result (out.new.items ≡ out.old.items ++ ended (numbers_line name.now (number ∷ []))) }
{
    print_line(name, &[Field::Number(number)], out)
}

fn print_fraction_line(fraction: &Frac, out: &mut Vec<u8>) -> Result<(), AllocError>
    ensures { OnOk result (out.new.items ≡ out.old.items ++ line (fraction_label ++ frac_text fraction.now)) }
{
    print_line(b"fraction", &[Field::Fraction(fraction)], out)
}

/// The four lines of a surface.
fn report_text(alloc: Global, fatgraph: &Fatgraph) -> Result<Vec<u8>, AllocError>
    ensures { IfOk result (λ text. IsReport fatgraph.now.chain fatgraph.now.copies fatgraph.now.sides text.items) }
{
    let counts = fatgraph.counts(alloc)?;
    let fraction = fraction(&counts, fatgraph.copies());
    let (vertices, edges) = (i128::from(counts.vertices), i128::from(counts.edges));
    let mut text = Vec::new(alloc);
    print_number_line(b"vertices", vertices, &mut text)?;
    print_number_line(b"edges", edges, &mut text)?;
    print_number_line(b"euler", vertices - edges, &mut text)?;
    print_fraction_line(&fraction, &mut text)?;
    Ok(text)
}

/// Reads a surface text or a certificate and answers the surface's counts, or why it is none.
pub fn answer_surface(alloc: Global, input: &[u8]) -> Result<Answer, AllocError>
    ensures { IfOk result (λ answer. SurfaceResponds input.now (status_of answer) (text_of answer)) }
{
    match read_fatgraph(alloc, input)? {
        Said::Fatgraph(fatgraph) => Ok(Answer::Text(report_text(alloc, &fatgraph)?)),
        Said::Refused(answer) => Ok(answer),
    }
}
