//! All the tokens of a text but those that wait.

ghost use Rattle.std.specs.Prelude.{length, false};
ghost use Rattle.std.specs.Str.{chars};
ghost use Rattle.cyc_lex.specs.Lexing.{HasRoom, Stops, lex, comment_len};
ghost use Rattle.piecewise_lex.specs.Taking.{reading};
ghost use Rattle.piecewise_lex.specs.Fronts.{Fronts};

use crate::owned::{OwnedToken, push_own};
use crate::taking::take_token;
use cyc_lex::{Bad, Piece, Place, Stop, check_len, next, skip_comment};
use std::alloc::Global;

/// What was taken of a text: copies of its tokens, the place after them, whether a comment goes on there, and the text
/// that waits.
#[derive(Drop)]
pub struct Front<'a> {
    pub tokens: Vec<OwnedToken>,
    pub place: Place,
    pub comment: bool,
    pub waits: &'a str,
}

/// Takes the tokens of a text that stands at a place, where a comment goes on or none does, but for what waits at its
/// end.
pub fn take_front(alloc: Global, place: Place, comment: bool, text: &str) -> Result<Front<'_>, Stop>
    requires { HasRoom place (length text.now) }
    ensures { Fronts (reading place comment text.now) result }
{
    let mut tokens = Vec::new(alloc);
    let mut place = place;
    let mut comment = comment;
    let mut rest = text;
    'tokens: loop {
        let taken = take_token(place, comment, rest)?;
        place = taken.place;
        comment = taken.comment;
        rest = taken.rest;
        match taken.token {
            None => {
                return Ok(Front {
                    tokens,
                    place,
                    comment,
                    waits: rest,
                });
            }
            Some(token) => push_own(alloc, &mut tokens, &token)?,
        }
    }
}

/// The first bad place of a text that stands at a place, where a comment goes on or none does, and after which a byte
/// comes that begins no character.
pub fn first_bad(place: Place, comment: bool, text: &str) -> Stop
    requires { HasRoom place (length text.now) }
    ensures { Stops result (lex false place (comment_len comment (chars text.now)) (chars text.now)) }
{
    let (mut rest, mut place) = skip_comment(place, comment, text);
    'pieces: while !rest.is_empty() {
        let (piece, front, after, behind) = next(place, rest);
        match piece {
            Piece::Gap => {}
            Piece::Stray => return Stop::At(Bad::Byte, place),
            Piece::Token(kind) => match check_len(kind, place, front) {
                Ok(()) => {}
                Err(stop) => return stop,
            },
        }
        rest = after;
        place = behind;
    }
    Stop::At(Bad::Utf8, place)
}
