//! The judgement and the reason in the text of a box.
ghost use Rattle.std.specs.Prelude.{◌≡◌, ◌++◌, ◌∷◌, [], IfOk, OnOk, map};
ghost use Rattle.proof_picture.specs.Texts.{begins_reason as begins, judgement_in, reason_from};
ghost use Rattle.proof_picture.specs.Pieces.{Line, piece_of};

use crate::Piece;
use cyc_basics::memory::OutOfMemory;
use std::alloc::Global;

fn copy_of(alloc: Global, piece: &Piece) -> Result<Piece, OutOfMemory>
    ensures { IfOk result (λ p. piece_of p ≡ piece_of piece.now) }
{
    match piece {
        Piece::Words(bold, text) => Ok(Piece::Words(
            *bold,
            Vec::from_slice(alloc, text.as_slice())?,
        )),
        Piece::Space => Ok(Piece::Space),
        Piece::Line => Ok(Piece::Line),
    }
}

/// Whether the reason begins with this piece.
fn begins_reason(piece: &Piece) -> bool
    ensures { result ≡ begins (piece_of piece.now) }
{
    match piece {
        Piece::Words(_, text) => text.as_slice().starts_with("by ".as_bytes()),
        Piece::Space => false,
        Piece::Line => false,
    }
}

/// Adds a copy of the text before the reason.
pub fn add_judgement(
    alloc: Global,
    to: &mut Vec<Piece>,
    pieces: &[Piece],
) -> Result<(), OutOfMemory>
    ensures { OnOk result (map piece_of to.new.items ≡ map piece_of to.old.items
        ++ judgement_in (map piece_of pieces.now)) }
{
    for piece in pieces {
        if begins_reason(piece) {
            return Ok(());
        }
        to.push(copy_of(alloc, piece)?)?;
    }
    Ok(())
}

/// Adds a copy of the reason, or of the whole text where that `began` already.
pub fn add_reason(
    alloc: Global,
    to: &mut Vec<Piece>,
    began: bool,
    pieces: &[Piece],
) -> Result<(), OutOfMemory>
    ensures { OnOk result (map piece_of to.new.items
        ≡ map piece_of to.old.items ++ reason_from began (map piece_of pieces.now)) }
{
    let mut began = began;
    for piece in pieces {
        began = began || begins_reason(piece);
        if began {
            to.push(copy_of(alloc, piece)?)?;
        }
    }
    Ok(())
}

/// Adds the end of a line.
pub fn add_line(to: &mut Vec<Piece>) -> Result<(), OutOfMemory>
    ensures { OnOk result (map piece_of to.new.items ≡ map piece_of to.old.items ++ Line ∷ []) }
{
    to.push(Piece::Line)?;
    Ok(())
}
