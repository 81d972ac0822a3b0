//! Cutting a text token by token, where none is kept.

ghost use Rattle.std.specs.Prelude.{◌≡◌, ◌<◌, Some, length, slice_get, true};
ghost use Rattle.std.specs.Str.{chars};
ghost use Rattle.cyc_lex.specs.Placed.{placed};
ghost use Rattle.cyc_lex.specs.Lexing.{HasRoom, lex, comment_len};
ghost use Rattle.cyc_lex.specs.Cutting.{IsCut, Counts, cut_text};

use crate::lexing::{check_len, next, skip_comment};
use crate::place::{Bad, Piece, Place, Stop};
use crate::token::{Kind, Token};

/// The token at the front of a text, the place after it, and the text there.
#[derive(Clone, Copy)]
pub struct Cut<'a> {
    pub token: Token<'a>,
    pub place: Place,
    pub rest: &'a str,
}

/// Cuts the first token off a text that stands at a place: the end token where no other is left. What is bad in the
/// text is passed over.
pub fn cut_token(place: Place, text: &str) -> Cut<'_>
    requires { HasRoom place (length text.now) }
    ensures { IsCut place text.now result }
{
    let mut place = place;
    let mut rest = text;
    'pieces: while !rest.is_empty() {
        let (piece, front, after, behind) = next(place, rest);
        match piece {
            Piece::Token(kind) => {
                return Cut {
                    token: Token {
                        kind,
                        text: front,
                        line: place.line,
                        column: place.column,
                    },
                    place: behind,
                    rest: after,
                };
            }
            Piece::Gap => {}
            Piece::Stray => {}
        }
        rest = after;
        place = behind;
    }
    Cut {
        token: Token {
            kind: Kind::End,
            text: rest,
            line: place.line,
            column: place.column,
        },
        place,
        rest,
    }
}

/// The number of the tokens of a text that stands at a place, where a comment goes on or none does, and after which
/// nothing comes; the end token is one of them.
pub fn count_tokens(place: Place, comment: bool, text: &str) -> Result<usize, Stop>
    requires { HasRoom place (length text.now) }
    ensures { Counts (cut_text place comment text.now) result
        (lex true place (comment_len comment (chars text.now)) (chars text.now)) }
{
    let (mut rest, mut place) = skip_comment(place, comment, text);
    let mut count = 1;
    'pieces: while !rest.is_empty() {
        let (piece, front, after, behind) = next(place, rest);
        match piece {
            Piece::Gap => {}
            Piece::Stray => return Err(Stop::At(Bad::Byte, place)),
            Piece::Token(kind) => {
                check_len(kind, place, front)?;
                count += 1;
            }
        }
        rest = after;
        place = behind;
    }
    Ok(count)
}

/// The token of a text with this number, counted from 0; the text stands at a place, where a comment goes on or none
/// does.
pub fn token_at(place: Place, comment: bool, text: &str, number: usize) -> Token<'_>
    requires room { HasRoom place (length text.now) }
    requires within { number < length (cut_text place comment text.now) }
    ensures { slice_get (cut_text place comment text.now) number ≡ Some (placed result) }
{
    let (rest, behind) = skip_comment(place, comment, text);
    let mut cut = cut_token(behind, rest);
    let mut left = number;
    'tokens: while left > 0 {
        cut = cut_token(cut.place, cut.rest);
        left -= 1;
    }
    cut.token
}
