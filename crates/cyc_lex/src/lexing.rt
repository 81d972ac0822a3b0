//! Cutting a text into tokens.

ghost use Rattle.std.specs.Prelude.{◌≡◌, ◌+◌, ◌<◌, ◌≤◌, ◌++◌, ◌∷◌, [], length, take, drop, slice_index, MatchOption};
ghost use Rattle.std.specs.Prelude.{map, ◌^◌, ◌-◌};
ghost use Rattle.std.specs.Str.{chars, encode_utf8_all, IsUtf8};
ghost use Rattle.std.specs.Char.{encode_utf8, len_utf8};
ghost use Rattle.std.specs.List.{prefix_len};
ghost use Rattle.cyc_lex.specs.Lexing.{pass_all, piece_of, piece_chars, piece_rest, HasRoom, Lexes, lex, start};
ghost use Rattle.cyc_lex.specs.Lexing.{len_fault};
ghost use Rattle.cyc_lex.specs.Characters.{goes_on};
ghost use Rattle.cyc_lex.specs.Lexing.{comment_len};
ghost use Rattle.cyc_lex.specs.Placed.{placed};

use crate::place::{
    Bad, Piece, Place, Run, Stop, goes_on, is_double, is_plain, is_single, is_space, starts_name,
};
use crate::token::{Kind, Token};
use cyc_basics::limits::{LONGEST_NAME, LONGEST_NUMBER};
use std::alloc::Global;

/// The first character of a text, and the text after it.
#[inline(always)]
pub fn first(text: &str) -> Option<(char, &str)>
    ensures chars { MatchOption result (chars text.now ≡ []) (λ x. chars text.now ≡ x.0 ∷ chars x.1.now) }
    ensures bytes { MatchOption result (text.now ≡ []) (λ x. text.now ≡ encode_utf8 x.0 ++ x.1.now) }
    ensures size { MatchOption result (text.now ≡ []) (λ x. len_utf8 x.0 + length x.1.now ≡ length text.now) }
{
    let mut rest = text.chars();
    let c = rest.next()?;
    Some((c, rest.as_str()))
}

/// The place after the run at the front of a text.
pub fn run(run: Run, place: Place, text: &str) -> Place
    requires { HasRoom place (length text.now) }
    ensures { result ≡ pass_all place (take (prefix_len (goes_on run) (chars text.now)) (chars text.now)) }
{
    let mut place = place;
    for c in text.chars() {
        if !goes_on(run, c) {
            return place;
        }
        place = place.pass(c);
    }
    place
}

/// What a text begins with, and the place after it.
#[tactic(auto, unfolding(crate::specs::Lexing::pass_all))]
#[inline(always)]
fn piece(place: Place, text: &str) -> (Piece, Place)
    requires { HasRoom place (length text.now) }
    ensures kind { result.0 ≡ piece_of (chars text.now) }
    ensures place { result.1 ≡ pass_all place (piece_chars (chars text.now)) }
{
    let Some((c, rest)) = first(text) else {
        return (Piece::Gap, place);
    };
    let behind = place.pass(c);
    if is_plain(c) {
        return (Piece::Token(Kind::Symbol), behind);
    }
    if is_space(c) {
        return (Piece::Gap, behind);
    }
    if c == '#' {
        return (Piece::Gap, run(Run::Comment, behind, rest));
    }
    if starts_name(c) {
        return (Piece::Token(Kind::Name), run(Run::Name, behind, rest));
    }
    if c.is_ascii_digit() {
        return (Piece::Token(Kind::Number), run(Run::Number, behind, rest));
    }
    let next = next_char(rest);
    if is_double(c, next) {
        return (Piece::Token(Kind::Symbol), behind.pass(next));
    }
    if is_single(c) {
        return (Piece::Token(Kind::Symbol), behind);
    }
    (Piece::Stray, behind)
}

/// The first character of a text, or else the character 0.
#[inline(always)]
pub fn next_char(text: &str) -> char
    ensures value { result ≡ slice_index (chars text.now) 0 }
    ensures within { 0 < result → len_utf8 result ≤ length text.now }
{
    match first(text) {
        Some((c, _)) => c,
        None => '\0',
    }
}

/// Takes the first piece off a text, the longest: what it is, its text, the text after it, and the place of that.
#[inline(always)]
pub fn next(place: Place, text: &str) -> (Piece, &str, &str, Place)
    requires room { HasRoom place (length text.now) }
    requires some { 0 < length text.now }
    ensures kind { result.0 ≡ piece_of (chars text.now) }
    ensures front { result.1.now ≡ encode_utf8_all (piece_chars (chars text.now)) }
    ensures rest { chars result.2.now ≡ piece_rest (chars text.now) }
    ensures place { result.3 ≡ pass_all place (piece_chars (chars text.now)) }
    ensures room { HasRoom result.3 (length result.2.now) }
    ensures shorter { length result.2.now < length text.now }
    ensures utf8 { IsUtf8 result.2.now }
{
    let (piece, behind) = piece(place, text);
    let size = (behind.offset - place.offset) as usize;
    let (front, rest) = text.split_at(size);
    (piece, front, rest, behind)
}

/// A text without the comment that goes on at its start, where one does, and the place of what is left.
pub fn skip_comment(place: Place, comment: bool, text: &str) -> (&str, Place)
    requires { HasRoom place (length text.now) }
    ensures rest { chars result.0.now ≡ drop (comment_len comment (chars text.now)) (chars text.now) }
    ensures place { result.1 ≡ pass_all place (take (comment_len comment (chars text.now)) (chars text.now)) }
    ensures room { HasRoom result.1 (length result.0.now) }
    ensures utf8 { IsUtf8 result.0.now }
{
    if !comment {
        return (text, place);
    }
    let behind = run(Run::Comment, place, text);
    let size = (behind.offset - place.offset) as usize;
    let (_, rest) = text.split_at(size);
    (rest, behind)
}

/// The tokens of a text that stands at a place, where a comment goes on or none does. The text is all that is to come,
/// or is followed by a bad byte.
pub fn lex_from(
    alloc: Global,
    place: Place,
    comment: bool,
    whole: bool,
    text: &str,
) -> Result<Vec<Token<'_>>, Stop>
    requires { HasRoom place (length text.now) }
    ensures { Lexes (λ v. map placed v.items) result
        (lex whole place (comment_len comment (chars text.now)) (chars text.now)) }
{
    let mut out = Vec::new(alloc);
    let (mut rest, mut place) = skip_comment(place, comment, text);
    while !rest.is_empty() {
        let (piece, front, after, behind) = next(place, rest);
        match piece {
            Piece::Gap => {}
            Piece::Stray => return Err(Stop::At(Bad::Byte, place)),
            Piece::Token(kind) => {
                check_len(kind, place, front)?;
                out.push(Token {
                    kind,
                    text: front,
                    line: place.line,
                    column: place.column,
                })?;
            }
        }
        rest = after;
        place = behind;
    }
    if !whole {
        return Err(Stop::At(Bad::Utf8, place));
    }
    out.push(Token {
        kind: Kind::End,
        text: rest,
        line: place.line,
        column: place.column,
    })?;
    Ok(out)
}

/// The tokens of a text, which is the whole text or is followed by a bad byte.
pub fn lex(alloc: Global, whole: bool, text: &str) -> Result<Vec<Token<'_>>, Stop>
    requires { length text.now < 2 ^ 32 - 1 }
    ensures { Lexes (λ v. map placed v.items) result
        (lex whole start 0 (chars text.now)) }
{
    lex_from(alloc, Place::START, false, whole, text)
}

/// Refuses a name of more than 64 bytes and a number of more than 9 digits.
#[inline(always)]
pub fn check_len(kind: Kind, place: Place, text: &str) -> Result<(), Stop>
    ensures { result ≡ len_fault kind place text.now }
{
    match kind {
        Kind::Name if text.len() > LONGEST_NAME => Err(Stop::At(Bad::LongName, place)),
        Kind::Number if text.len() > LONGEST_NUMBER => Err(Stop::At(Bad::LongNumber, place)),
        _ => Ok(()),
    }
}
