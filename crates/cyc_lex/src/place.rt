//! Places in a text, and what may begin at one.

ghost use Rattle.std.specs.Prelude.{◌≡◌, ◌+◌, ◌<◌, ◌^◌, ◌||◌, ◌==◌, IsTrue};
ghost use Rattle.std.specs.Char.{len_utf8};
ghost use Rattle.cyc_lex.specs.Lexing.{pass};
ghost use Rattle.cyc_lex.specs.Characters.{is_space, starts_name, goes_on, is_double, is_single, is_plain};

use crate::token::Kind;
use cyc_basics::memory::OutOfMemory;
use std::alloc::AllocFailed;

/// A place in a text: how many bytes stand before it, and its line and column, counted from 1, the column in
/// characters.
#[derive(Clone, Copy)]
pub struct Place {
    pub offset: u32,
    pub line: u32,
    pub column: u32,
}

/// What is as long as characters go on it: a comment up to its line feed, a name, a number.
#[derive(Clone, Copy)]
pub enum Run {
    Comment,
    Name,
    Number,
}

/// What a text begins with: a space or a comment, a token, or a character that begins none.
#[derive(Clone, Copy)]
pub enum Piece {
    Gap,
    Token(Kind),
    Stray,
}

/// What is bad at a place.
#[derive(Clone, Copy)]
pub enum Bad {
    Byte,
    Utf8,
    LongNumber,
    LongName,
}

/// Why a text has no tokens.
#[derive(Clone, Copy)]
pub enum Stop {
    At(Bad, Place),
    OutOfMemory,
}

impl From<OutOfMemory> for Stop {
    ghost use Rattle.std.specs.Prelude.{◌≡◌};
    ghost use Rattle.cyc_lex.specs.declared.place.Stop.TheVariants as stops;

    ghost from_gives = { λ _ e. e ≡ stops.OutOfMemory };

    fn from(_e: OutOfMemory) -> Stop {
        Stop::OutOfMemory
    }
}

impl<T: Drop> From<AllocFailed<T>> for Stop {
    ghost use Rattle.std.specs.Prelude.{◌≡◌};
    ghost use Rattle.cyc_lex.specs.declared.place.Stop.TheVariants.{OutOfMemory};

    ghost from_gives = { λ _ e. e ≡ OutOfMemory };

    fn from(_e: AllocFailed<T>) -> Stop {
        Stop::OutOfMemory
    }
}

impl Place {
    /// The place of a text's first byte.
    pub const START: Place = Place {
        offset: 0,
        line: 1,
        column: 1,
    };

    /// The place after the character.
    #[inline(always)]
    pub fn pass(self, c: char) -> Place
        requires offset { self.offset + len_utf8 c < 2 ^ 32 }
        requires line { self.line + 1 < 2 ^ 32 }
        requires column { self.column + 1 < 2 ^ 32 }
        ensures { result ≡ pass self c }
    {
        if c == '\n' {
            return Place {
                offset: self.offset + 1,
                line: self.line + 1,
                column: 1,
            };
        }
        Place {
            offset: self.offset + c.len_utf8() as u32,
            line: self.line,
            column: self.column + 1,
        }
    }
}

/// Whether a character separates tokens: a space, a tab, a carriage return or a line feed.
pub fn is_space(c: char) -> bool
    ensures { result ≡ is_space c }
{
    c == ' ' || c == '\t' || c == '\r' || c == '\n'
}

/// Whether a character starts a name: `_`, or what may start an identifier by Unicode UAX 31.
pub fn starts_name(c: char) -> bool
    ensures { result ≡ starts_name c }
{
    c == '_' || unicode_ident::is_xid_start(c)
}

/// Whether a character goes on a run.
pub fn goes_on(run: Run, c: char) -> bool
    ensures { result ≡ goes_on run c }
{
    match run {
        Run::Comment => c != '\n',
        Run::Name => unicode_ident::is_xid_continue(c),
        Run::Number => c.is_ascii_digit(),
    }
}

pub fn is_double(c: char, d: char) -> bool
    ensures value { result ≡ is_double c d }
    ensures ascii { IsTrue result → (len_utf8 c ≡ 1) × (len_utf8 d ≡ 1) × (0 < d) }
{
    (c == '|' && d == '-')
        || (c == '-' && d == '>')
        || (c == ':' && d == '=')
        || (c == '!' && d == '=')
}

pub fn is_single(c: char) -> bool
    ensures { result ≡ is_single c }
{
    matches!(
        c,
        '(' | ')'
            | '{'
            | '}'
            | '['
            | ']'
            | ','
            | ';'
            | ':'
            | '*'
            | '='
            | '|'
            | '.'
            | '$'
            | '?'
            | '\''
    )
}

/// Whether a character is a symbol with which none of two characters begins.
#[inline(always)]
pub fn is_plain(c: char) -> bool
    ensures { result ≡ is_plain c }
{
    matches!(
        c,
        '(' | '[' | '{' | ')' | ']' | '}' | ',' | ';' | '*' | '=' | '.' | '$' | '?' | '\''
    )
}
