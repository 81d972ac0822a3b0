//! Passing over tokens of which none matters any more.

ghost use Rattle.std.specs.Prelude.{length};
ghost use Rattle.cyc_lex.specs.Lexing.{HasRoom};
ghost use Rattle.file_reader.specs.Passing.{Passes};

use cyc_lex::{Place, Stop};
use piecewise_lex::take_token;

/// The place after tokens that were passed, whether a comment goes on there, and the text that is left, which waits.
#[derive(Clone, Copy)]
pub struct Passed<'a> {
    pub place: Place,
    pub comment: bool,
    pub rest: &'a str,
}

/// Passes over the tokens of a text that stands at a place, where a comment goes on or none does, but for what waits at
/// its end. It takes no memory.
pub fn pass_tokens(place: Place, comment: bool, text: &str) -> Result<Passed<'_>, Stop>
    requires { HasRoom place (length text.now) }
    ensures { Passes place comment text.now result }
{
    let mut place = place;
    let mut comment = comment;
    let mut rest = text;
    'tokens: loop {
        let taken = take_token(place, comment, rest)?;
        place = taken.place;
        comment = taken.comment;
        rest = taken.rest;
        match taken.token {
            None => {
                return Ok(Passed {
                    place,
                    comment,
                    rest,
                });
            }
            Some(_token) => {}
        }
    }
}
