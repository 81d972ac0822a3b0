// What stands at the front of a text.
ghost use Rattle.std.specs.Prelude.{◌≡◌, ◌==◌, ◌<◌, ◌≤◌, ◌+◌, length, position, drop, not, false, IfSome};
ghost use Rattle.script_reader.specs.Bytes.{is_space, is_mark, is_word_byte};
ghost use Rattle.script_reader.specs.Pieces.{closed as closed_at, len_before as count_before, piece_at, piece_of};
ghost use Rattle.script_reader.specs.Pieces.{text_len as text_count, word_len as word_count};

use crate::trees::kinds::{AtomKind, Piece, TokenKind};

/// Whether a byte separates tokens: a space, a tab, a carriage return or a line feed.
fn is_space(byte: u8) -> bool
    ensures { result ≡ is_space byte }
{
    byte == b' ' || byte == b'\t' || byte == b'\r' || byte == b'\n'
}

/// Whether a byte is one of those that symbols have beside letters and digits.
fn is_mark(byte: u8) -> bool
    ensures { result ≡ is_mark byte }
{
    matches!(
        byte,
        b'~' | b'!'
            | b'@'
            | b'$'
            | b'%'
            | b'^'
            | b'&'
            | b'*'
            | b'_'
            | b'-'
            | b'+'
            | b'='
            | b'<'
            | b'>'
            | b'.'
            | b'?'
            | b'/'
    )
}

/// Whether a byte may stand in a symbol.
#[tactic(auto, unfolding(crate::specs::Bytes::is_word_byte))]
fn is_word_byte(byte: u8) -> bool
    ensures { result ≡ is_word_byte byte }
{
    byte.is_ascii_alphanumeric() || is_mark(byte)
}

/// The first byte that may not stand in a symbol.
fn first_other(bytes: &[u8]) -> Option<usize>
    ensures value { result ≡ position (λ b. not (is_word_byte b)) bytes.now }
    ensures within { IfSome result (λ n. n < length bytes.now) }
{
    bytes.iter().position(|byte| !is_word_byte(*byte))
}

/// How many bytes at the front may stand in a symbol.
fn word_len(bytes: &[u8]) -> usize
    ensures { result ≡ word_count bytes.now }
{
    match first_other(bytes) {
        Some(count) => count,
        None => bytes.len(),
    }
}

/// The first byte of this kind.
fn first_of(last: u8, bytes: &[u8]) -> Option<usize>
    ensures value { result ≡ position (λ b. b == last) bytes.now }
    ensures within { IfSome result (λ n. n < length bytes.now) }
{
    bytes.iter().position(|byte| *byte == last)
}

/// How many bytes come before the first of this kind.
fn len_before(last: u8, bytes: &[u8]) -> usize
    ensures value { result ≡ count_before last bytes.now }
    ensures within { result ≤ length bytes.now }
{
    match first_of(last, bytes) {
        Some(count) => count,
        None => bytes.len(),
    }
}

/// How many bytes a text takes behind its first quotation mark, two of which stand for one; more than there are if it
/// has no end.
fn text_len(bytes: &[u8]) -> usize
    ensures { result ≡ text_count false bytes.now }
{
    let mut closing = false;
    for (i, byte) in bytes.iter().enumerate() {
        if *byte == b'"' {
            closing = !closing;
        } else if closing {
            return i;
        }
    }
    if closing {
        bytes.len()
    } else {
        bytes.len() + 1
    }
}

/// An atom that takes so many of the bytes behind its first, if so many are there.
fn closed(kind: AtomKind, rest: &[u8], len: usize) -> (Piece, usize)
    ensures value { result ≡ closed_at kind rest.now len }
    ensures within { result.1 ≤ length rest.now }
{
    if len > rest.len() {
        (Piece::Stray, 0)
    } else {
        (Piece::Token(TokenKind::Atom(kind)), len)
    }
}

/// What begins with this byte before others, and how many of these belong to it: the most.
#[tactic(auto, unfolding(crate::specs::Pieces::piece_at))]
fn piece(first: u8, rest: &[u8]) -> (Piece, usize)
    ensures value { result ≡ piece_at first rest.now }
    ensures within { result.1 ≤ length rest.now }
{
    match first {
        b'(' => (Piece::Token(TokenKind::Open), 0),
        b')' => (Piece::Token(TokenKind::Close), 0),
        b';' => (Piece::Gap, len_before(b'\n', rest)),
        b'|' => closed(AtomKind::Quoted, rest, len_before(b'|', rest) + 1),
        b'"' => closed(AtomKind::Text, rest, text_len(rest)),
        b':' => closed(AtomKind::Keyword, rest, word_len(rest)),
        b'#' | b'0'..=b'9' => closed(AtomKind::Constant, rest, word_len(rest)),
        _ => {
            if is_space(first) {
                (Piece::Gap, 0)
            } else if is_word_byte(first) {
                closed(AtomKind::Symbol, rest, word_len(rest))
            } else {
                (Piece::Stray, 0)
            }
        }
    }
}

/// What stands at an offset of a text, and how many bytes behind the first belong to it.
pub fn piece_from(bytes: &[u8], at: usize) -> (Piece, usize)
    requires { at < length bytes.now }
    ensures value { result ≡ piece_of (drop at bytes.now) }
    ensures within { at + 1 + result.1 ≤ length bytes.now }
{
    piece(bytes[at], &bytes[at + 1..])
}
