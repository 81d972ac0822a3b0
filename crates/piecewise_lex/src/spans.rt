//! Passing statements at the front of a text: where they end, and how many tokens they have.

ghost use Rattle.std.specs.Prelude.{◌≡◌, IfOk, length, map};
ghost use Rattle.cyc_lex.specs.Lexing.{HasRoom};
ghost use Rattle.cyc_lex.specs.Placed.{placed};
ghost use Rattle.piecewise_lex.specs.Taking.{reading};
ghost use Rattle.piecewise_lex.specs.Spans.{Spans, Passes, front_tokens, is_semicolon, is_named};

use crate::taking::take_token;
use cyc_lex::{Kind, Place, Stop, Token};

/// How many tokens were passed at the front of a text, and whether a `;` ended them or all that is left waits; the
/// place after them, whether a comment goes on there, and the text that is left.
#[derive(Clone, Copy)]
pub struct Span<'a> {
    pub tokens: usize,
    pub ended: bool,
    pub place: Place,
    pub comment: bool,
    pub rest: &'a str,
}

fn is_semicolon(token: &Token<'_>) -> bool
    ensures { result ≡ is_semicolon (placed token.now) }
{
    match token.kind {
        Kind::Symbol => {
            let bytes = token.text.as_bytes();
            bytes.len() == 1 && bytes[0] == b';'
        }
        _ => false,
    }
}

/// Whether a token is this name.
fn begins_with(token: &Token<'_>, name: &str) -> bool
    ensures { result ≡ is_named (placed token.now) name.now }
{
    match token.kind {
        Kind::Name => token.text == name,
        _ => false,
    }
}

/// So many tokens are kept at most; a caller cuts those of a longer text once more.
const MOST_KEPT: usize = 65_536;

/// Takes the tokens of a statement at the front of a text that stands at a place, where a comment goes on or none
/// does, and keeps as many as fit, in place of those kept before. What has no `;` may go on with the bytes that come
/// next.
pub fn take_statement<'a>(
    kept: &mut Vec<Token<'a>>,
    place: Place,
    comment: bool,
    text: &'a str,
) -> Result<Span<'a>, Stop>
    requires { HasRoom place (length text.now) }
    ensures taken { Spans (reading place comment text.now) result }
    // Where so many were kept, these are all.
    ensures kept { IfOk result (λ s. length kept.new.items ≡ s.tokens
        → map placed kept.new.items ≡ front_tokens s.tokens (reading place comment text.now)) }
{
    kept.clear();
    let mut span = Span {
        tokens: 0,
        ended: false,
        place,
        comment,
        rest: text,
    };
    'tokens: loop {
        let taken = take_token(span.place, span.comment, span.rest)?;
        span.place = taken.place;
        span.comment = taken.comment;
        span.rest = taken.rest;
        let token = match taken.token {
            None => return Ok(span),
            Some(token) => token,
        };
        span.tokens += 1;
        if kept.len() < MOST_KEPT {
            kept.push(token)?;
        }
        if is_semicolon(&token) {
            span.ended = true;
            return Ok(span);
        }
    }
}

/// Takes statements at the front of a text up to the end of the first that begins with this name, or all tokens that do
/// not wait where none does, and keeps as many tokens as fit, in place of those kept before.
pub fn take_statements<'a>(
    kept: &mut Vec<Token<'a>>,
    name: &str,
    place: Place,
    comment: bool,
    text: &'a str,
) -> Result<Span<'a>, Stop>
    requires { HasRoom place (length text.now) }
    ensures taken { Passes (reading place comment text.now) result }
    // Where so many were kept, these are all.
    ensures kept { IfOk result (λ s. length kept.new.items ≡ s.tokens
        → map placed kept.new.items ≡ front_tokens s.tokens (reading place comment text.now)) }
{
    kept.clear();
    let mut span = Span {
        tokens: 0,
        ended: false,
        place,
        comment,
        rest: text,
    };
    let mut starts = true;
    let mut is_last = false;
    'tokens: loop {
        let taken = take_token(span.place, span.comment, span.rest)?;
        span.place = taken.place;
        span.comment = taken.comment;
        span.rest = taken.rest;
        let token = match taken.token {
            None => return Ok(span),
            Some(token) => token,
        };
        span.tokens += 1;
        if kept.len() < MOST_KEPT {
            kept.push(token)?;
        }
        is_last = is_last || starts && begins_with(&token, name);
        starts = is_semicolon(&token);
        if starts && is_last {
            span.ended = true;
            return Ok(span);
        }
    }
}
