// Places in a text.
ghost use Rattle.std.specs.Prelude.{◌<◌, ◌^◌, ◌-◌, length};

use crate::trees::kinds::Piece;
use crate::trees::pieces::piece_from;

/// Where a token stands: its number, its line and its column. The number counts from 0, the others from 1, the column
/// in characters.
#[derive(Clone, Copy)]
pub struct TokenPlace {
    pub token: u32,
    pub line: u32,
    pub column: u32,
}

/// Whether a byte goes on a character of UTF-8.
fn goes_on(byte: u8) -> bool {
    byte >= 128 && byte < 192
}

/// The line and the column of the byte at an offset.
fn line_and_column(bytes: &[u8], at: usize) -> (u32, u32)
    requires { length bytes.now < 2 ^ 32 - 1 }
{
    let mut line = 1u32;
    let mut column = 1u32;
    for (i, byte) in bytes.iter().enumerate() {
        if i >= at {
            return (line, column);
        }
        if *byte == b'\n' {
            line += 1;
            column = 1;
        } else if !goes_on(*byte) {
            column += 1;
        }
    }
    (line, column)
}

/// How many tokens begin before an offset.
fn tokens_before(bytes: &[u8], offset: usize) -> u32
    requires { length bytes.now < 2 ^ 32 - 1 }
{
    let mut count = 0u32;
    let mut at = 0usize;
    'pieces: while at < bytes.len() && at < offset {
        let (piece, len) = piece_from(bytes, at);
        if let Piece::Token(_) = piece {
            count += 1;
        }
        at += 1 + len;
    }
    count
}

/// The place of the token that begins at an offset.
pub fn place_of(bytes: &[u8], offset: usize) -> TokenPlace
    requires { length bytes.now < 2 ^ 32 - 1 }
{
    let (line, column) = line_and_column(bytes, offset);
    TokenPlace {
        token: tokens_before(bytes, offset),
        line,
        column,
    }
}
