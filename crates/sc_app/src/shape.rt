//! The command `shape`.

ghost use Rattle.std.specs.Prelude.{◌≡◌, ◌++◌, pos, IfOk, OnOk};
ghost use Rattle.sc_line.specs.Lines as lines;
ghost use Rattle.sc_app.specs.Answer.{status_of, text_of};
ghost use Rattle.sc_app.specs.Shape.{ShapeResponds, IsShape, boundary_line, counts_line, component_line, component_lines, shape_text};

use crate::answer::Answer;
use crate::said::{Said, read_fatgraph};
use sc_fatgraph::Fatgraph;
use sc_shape::{Boundary, Component, components, euler_of};
use sc_text::{Field, print_line};
use std::alloc::{AllocError, Global};

/// Appends the line of a boundary.
fn print_boundary_line(boundary: &Boundary, out: &mut Vec<u8>) -> Result<(), AllocError>
    ensures { OnOk result (out.new.items ≡ out.old.items ++ lines.ended (boundary_line boundary.now)) }
{
    let fields = [
        Field::Number(i128::from(boundary.word)),
        Field::Number(i128::from(boundary.degree)),
    ];
    print_line(b"boundary", &fields, out)
}

/// A count as a number of a line.
fn counted(count: usize) -> i128
    ensures { result ≡ pos count }
{
    count as i128
}

/// Appends the line of a component that has these numbers.
fn print_counts_line(
    number: i128,
    sides: i128,
    vertices: i128,
    edges: i128,
    euler: i128,
    boundaries: i128,
    out: &mut Vec<u8>,
) -> Result<(), AllocError>
    ensures { OnOk result (out.new.items ≡ out.old.items ++ lines.ended (counts_line number sides vertices edges euler boundaries)) }
{
    let fields = [
        Field::Number(number),
        Field::Text(b"sides"),
        Field::Number(sides),
        Field::Text(b"vertices"),
        Field::Number(vertices),
        Field::Text(b"edges"),
        Field::Number(edges),
        Field::Text(b"euler"),
        Field::Number(euler),
        Field::Text(b"boundaries"),
        Field::Number(boundaries),
    ];
    print_line(b"component", &fields, out)
}

/// Appends the line of a component's counts.
fn print_component_line(
    number: usize,
    component: &Component,
    out: &mut Vec<u8>,
) -> Result<(), AllocError>
    ensures { OnOk result (out.new.items ≡ out.old.items ++ lines.ended (component_line number component.now)) }
{
    print_counts_line(
        counted(number),
        i128::from(component.sides),
        i128::from(component.vertices),
        i128::from(component.edges),
        i128::from(euler_of(component)),
        counted(component.boundaries.len()),
        out,
    )
}

/// Appends the lines of a component: its own, and those of its boundaries.
fn print_component(
    number: usize,
    component: &Component,
    out: &mut Vec<u8>,
) -> Result<(), AllocError>
    ensures { OnOk result (out.new.items ≡ out.old.items ++ lines.text_of (component_lines number component.now)) }
{
    print_component_line(number, component, out)?;
    for boundary in component.boundaries.as_slice() {
        print_boundary_line(boundary, out)?;
    }
    Ok(())
}

/// The text of components.
fn text_of_components(alloc: Global, components: &[Component]) -> Result<Vec<u8>, AllocError>
    ensures { IfOk result (λ text. text.items ≡ shape_text components.now) }
{
    let mut text = Vec::new(alloc);
    for (number, component) in components.iter().enumerate() {
        print_component(number, component, &mut text)?;
    }
    Ok(text)
}

/// The components of a fatgraph, each with its boundaries.
fn describe(alloc: Global, fatgraph: &Fatgraph) -> Result<Vec<u8>, AllocError>
    ensures { IfOk result (λ text. IsShape fatgraph.now.chain fatgraph.now.copies fatgraph.now.sides text.items) }
{
    let components = components(alloc, fatgraph)?;
    let text = text_of_components(alloc, components.as_slice())?;
    Ok(text)
}

/// Reads a surface text or a certificate and answers the surface's components and their boundaries, or why it is none.
pub fn answer_shape(alloc: Global, input: &[u8]) -> Result<Answer, AllocError>
    ensures { IfOk result (λ answer. ShapeResponds input.now (status_of answer) (text_of answer)) }
{
    match read_fatgraph(alloc, input)? {
        Said::Fatgraph(fatgraph) => Ok(Answer::Text(describe(alloc, &fatgraph)?)),
        Said::Refused(answer) => Ok(answer),
    }
}
