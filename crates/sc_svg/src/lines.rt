//! The lines of a drawing.

ghost use Rattle.std.specs.Prelude.{◌≡◌, ◌+◌, ◌-◌, ◌/◌, ◌<◌, ◌^◌, ◌++◌, ◌∷◌, [], min, max, OnOk};
ghost use Rattle.sc_words.specs.declared.limits.TheConstants.{GENERATORS};
ghost use Rattle.sc_words.specs.Spelling as spelling;
ghost use Rattle.sc_svg.specs.Drawings as drawings;

use crate::pieces::{Piece, print_pieces};
use sc_chain::Letter;
use std::alloc::AllocError;

/// Appends the first line: the width and the height.
pub(crate) fn print_head(width: u32, height: u32, out: &mut Vec<u8>) -> Result<(), AllocError>
    ensures { OnOk result (out.new.items ≡ out.old.items ++ drawings.head_line width height) }
{
    let pieces = [
        Piece::Text(b"<svg xmlns=\"http://www.w3.org/2000/svg\" viewBox=\"0 0 "),
        Piece::Number(width),
        Piece::Text(b" "),
        Piece::Number(height),
        Piece::Text(b"\">\n"),
    ];
    print_pieces(&pieces, out)
}

/// Appends the line of a vertex, from its first x to its last.
pub(crate) fn print_vertex(
    first: u32,
    last: u32,
    base: u32,
    out: &mut Vec<u8>,
) -> Result<(), AllocError>
    ensures { OnOk result (out.new.items ≡ out.old.items ++ drawings.vertex_line first last base) }
{
    let pieces = [
        Piece::Text(b"<line x1=\""),
        Piece::Number(first),
        Piece::Text(b"\" y1=\""),
        Piece::Number(base),
        Piece::Text(b"\" x2=\""),
        Piece::Number(last),
        Piece::Text(b"\" y2=\""),
        Piece::Number(base),
        Piece::Text(b"\" stroke=\"black\" stroke-width=\"4\"/>\n"),
    ];
    print_pieces(&pieces, out)
}

/// Appends the line of an arc from a lesser x to a greater one.
fn print_arc(
    from: u32,
    to: u32,
    radius: u32,
    base: u32,
    out: &mut Vec<u8>,
) -> Result<(), AllocError>
    ensures { OnOk result (out.new.items ≡ out.old.items ++ drawings.arc_line from to radius base) }
{
    let pieces = [
        Piece::Text(b"<path d=\"M "),
        Piece::Number(from),
        Piece::Text(b" "),
        Piece::Number(base),
        Piece::Text(b" A "),
        Piece::Number(radius),
        Piece::Text(b" "),
        Piece::Number(radius),
        Piece::Text(b" 0 0 1 "),
        Piece::Number(to),
        Piece::Text(b" "),
        Piece::Number(base),
        Piece::Text(b"\" fill=\"none\" stroke=\"black\"/>\n"),
    ];
    print_pieces(&pieces, out)
}

/// Appends the line of an edge between two sides at these x.
pub(crate) fn print_edge(x: u32, y: u32, base: u32, out: &mut Vec<u8>) -> Result<(), AllocError>
    ensures { OnOk result (out.new.items ≡ out.old.items ++ drawings.edge_line x y base) }
{
    let (from, to) = (x.min(y), x.max(y));
    print_arc(from, to, (to - from) / 2, base, out)
}

/// The byte of a letter: small for a generator, a capital for its inverse.
fn letter_byte(letter: Letter) -> u8
    requires { letter.number < GENERATORS }
    ensures { result ≡ spelling.letter_byte letter }
{
    let first = if letter.inverse { b'A' } else { b'a' };
    first + letter.number
}

/// Appends the line of a letter.
pub(crate) fn print_letter(
    x: u32,
    y: u32,
    letter: Letter,
    out: &mut Vec<u8>,
) -> Result<(), AllocError>
    requires { letter.number < GENERATORS }
    ensures { OnOk result (out.new.items ≡ out.old.items ++ drawings.letter_line x y (spelling.letter_byte letter)) }
{
    let byte = [letter_byte(letter)];
    let pieces = [
        Piece::Text(b"<text x=\""),
        Piece::Number(x),
        Piece::Text(b"\" y=\""),
        Piece::Number(y),
        Piece::Text(b"\" font-size=\"12\">"),
        Piece::Text(&byte),
        Piece::Text(b"</text>\n"),
    ];
    print_pieces(&pieces, out)
}
