//! Tokens with texts of their own.

ghost use Rattle.std.specs.Prelude.{◌≡◌, ◌≤◌, ◌++◌, ◌∷◌, [], length, map, All, IfOk, OnOk};
ghost use Rattle.cyc_lex.specs.Placed.{placed};
ghost use Rattle.piecewise_lex.specs.Owned.{owned, IsShort};

use crate::text::Text;
use cyc_basics::limits::LONGEST_NAME;
use cyc_lex::{Kind, OutOfMemory, Token};
use std::alloc::Global;

/// A token with its own text: what a `Token` has, without the bytes that it was cut from.
#[derive(Drop)]
pub struct OwnedToken {
    pub kind: Kind,
    pub text: Text,
    pub line: u32,
    pub column: u32,
}

/// A copy of a token.
fn own(alloc: Global, token: &Token<'_>) -> Result<OwnedToken, OutOfMemory>
    requires { length token.now.text.now ≤ LONGEST_NAME }
    ensures { IfOk result (λ t. owned t ≡ placed token.now) }
{
    Ok(OwnedToken {
        kind: token.kind,
        text: Text::new(alloc, token.text)?,
        line: token.line,
        column: token.column,
    })
}

/// Puts a copy of a token after others. Most tokens are symbols of one byte, which cost least.
#[inline(always)]
pub fn push_own(
    alloc: Global,
    tokens: &mut Vec<OwnedToken>,
    token: &Token<'_>,
) -> Result<(), OutOfMemory>
    requires { length token.now.text.now ≤ LONGEST_NAME }
    ensures { OnOk result (map owned tokens.new.items ≡ map owned tokens.old.items ++ placed token.now ∷ []) }
{
    match token.text.as_bytes() {
        [byte] => tokens.push(OwnedToken {
            kind: token.kind,
            text: Text::single(*byte),
            line: token.line,
            column: token.column,
        })?,
        _ => tokens.push(own(alloc, token)?)?,
    }
    Ok(())
}

/// Copies of tokens.
pub fn own_all(alloc: Global, tokens: &[Token<'_>]) -> Result<Vec<OwnedToken>, OutOfMemory>
    requires { All IsShort tokens.now }
    ensures { IfOk result (λ v. map owned v.items ≡ map placed tokens.now) }
{
    let mut all = Vec::with_capacity(alloc, tokens.len())?;
    for token in tokens {
        push_own(alloc, &mut all, token)?;
    }
    Ok(all)
}
