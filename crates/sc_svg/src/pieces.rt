//! Pieces of text.

ghost use Rattle.std.specs.Prelude.{◌≡◌, ◌++◌, OnOk};
ghost use Rattle.std.specs.List.{flat_map};
ghost use Rattle.sc_svg.specs.inside.Pieces.{piece_text};

use sc_whole::print_decimal;
use std::alloc::AllocError;

/// A piece of a line.
#[derive(Clone, Copy, Debug)]
pub(crate) enum Piece<'a> {
    /// Bytes as they are.
    Text(&'a [u8]),
    /// A number in its one spelling.
    Number(u32),
    /// A number that may be below 0, in its one spelling.
    Signed(i128),
}

/// Appends a piece.
fn print_piece(piece: Piece, out: &mut Vec<u8>) -> Result<(), AllocError>
    ensures { OnOk result (out.new.items ≡ out.old.items ++ piece_text piece.entry) }
{
    match piece {
        Piece::Text(text) => out.extend_from_slice(text),
        Piece::Number(number) => print_decimal(i128::from(number), out),
        Piece::Signed(number) => print_decimal(number, out),
    }
}

/// Appends pieces one behind another.
pub(crate) fn print_pieces(pieces: &[Piece], out: &mut Vec<u8>) -> Result<(), AllocError>
    ensures { OnOk result (out.new.items ≡ out.old.items ++ flat_map piece_text pieces.now) }
{
    for piece in pieces {
        print_piece(*piece, out)?;
    }
    Ok(())
}
