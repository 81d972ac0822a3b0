//! Taking tokens off the front of a text, of which more may come.

ghost use Rattle.std.specs.Prelude.{◌≡◌, ◌<◌, length, slice_index, false};
ghost use Rattle.cyc_lex.specs.Lexing.{HasRoom};
ghost use Rattle.cyc_lex.proofs.Lexed.{IsNext};
ghost use Rattle.piecewise_lex.specs.Taking.{IsSingle, Takes, stays};

use cyc_lex::{
    Bad, Kind, Piece, Place, Stop, Token, check_len, is_plain, next, next_char, skip_comment,
};
use std::alloc::Global;

/// What was taken off the front of a text: a token, or none where all that is left waits for more; the place after it,
/// whether a comment goes on there, and the text that is left.
#[derive(Clone, Copy)]
pub struct Taken<'a> {
    pub token: Option<Token<'a>>,
    pub place: Place,
    pub comment: bool,
    pub rest: &'a str,
}

/// Whether the piece at the front of a text waits for more, being all that is left of it.
#[inline(always)]
fn stays(piece: Piece, front: &str, after: &str) -> bool
    ensures { result ≡ stays piece front.now after.now }
{
    if !after.is_empty() {
        return false;
    }
    match piece {
        Piece::Gap => false,
        Piece::Token(_) => true,
        Piece::Stray => {
            let c = next_char(front);
            c == '!' || c == '-'
        }
    }
}

/// Takes a piece of one byte off a text.
#[inline(always)]
fn single(piece: Piece, byte: u8, place: Place, text: &str) -> (Piece, &str, &str, Place)
    requires room { HasRoom place (length text.now) }
    requires some { 0 < length text.now }
    requires first { slice_index text.now 0 ≡ byte }
    requires alone { IsSingle byte piece }
    ensures { IsNext place text.now result.0 result.1.now result.2.now result.3 }
{
    let (front, rest) = text.split_at(1);
    (piece, front, rest, place.pass(byte as char))
}

/// Takes the first piece off a text, as `next` does, and a space or a symbol of one byte at once.
#[inline(always)]
fn next_piece(place: Place, text: &str) -> (Piece, &str, &str, Place)
    requires room { HasRoom place (length text.now) }
    requires some { 0 < length text.now }
    ensures { IsNext place text.now result.0 result.1.now result.2.now result.3 }
{
    let byte = text.as_bytes()[0];
    if byte == b' ' {
        return single(Piece::Gap, byte, place, text);
    }
    if is_plain(byte as char) {
        return single(Piece::Token(Kind::Symbol), byte, place, text);
    }
    next(place, text)
}

/// Takes the next token of a text that stands at a place, where a comment goes on or none does. A token that reaches
/// the end of the text is not taken: it waits, as a `!` or a `-` does there.
#[inline(always)]
pub fn take_token(place: Place, comment: bool, text: &str) -> Result<Taken<'_>, Stop>
    requires { HasRoom place (length text.now) }
    ensures { Takes place comment text.now result }
{
    let (mut rest, mut place) = skip_comment(place, comment, text);
    let mut in_comment = comment;
    'pieces: while !rest.is_empty() {
        let (piece, front, after, behind) = next_piece(place, rest);
        if stays(piece, front, after) {
            return Ok(Taken {
                token: None,
                place,
                comment: false,
                rest,
            });
        }
        match piece {
            Piece::Gap => in_comment = front.as_bytes()[0] == b'#',
            Piece::Stray => return Err(Stop::At(Bad::Byte, place)),
            Piece::Token(kind) => {
                check_len(kind, place, front)?;
                return Ok(Taken {
                    token: Some(Token {
                        kind,
                        text: front,
                        line: place.line,
                        column: place.column,
                    }),
                    place: behind,
                    comment: false,
                    rest: after,
                });
            }
        }
        rest = after;
        place = behind;
    }
    Ok(Taken {
        token: None,
        place,
        comment: in_comment,
        rest,
    })
}
