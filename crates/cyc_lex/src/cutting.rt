//! The tokens of a text.

ghost use Rattle.std.specs.Prelude.{◌≡◌, ◌<◌, ◌^◌, ◌-◌, length, map, IfOk};
ghost use Rattle.cyc_lex.specs.Lexing.{Lexes, tokens_of};
ghost use Rattle.cyc_lex.specs.Placed.{placed};
ghost use Rattle.cyc_lex.specs.Answer.{fault_of, Answers};
ghost use Rattle.cyc_lex.specs.Slices.{AreTokens};

use crate::fault::LexFault;
use crate::lexing::lex;
use crate::place::{Bad, Place, Stop};
use crate::token::{Token, Tokens};
use std::alloc::Global;

/// The fault of what is bad at a place.
pub fn fault_at(bad: Bad, place: Place) -> LexFault
    ensures { result ≡ fault_of bad place }
{
    let Place {
        offset,
        line,
        column,
    } = place;
    match bad {
        Bad::Byte => LexFault::BadByte {
            offset,
            line,
            column,
        },
        Bad::Utf8 => LexFault::BadUtf8 {
            offset,
            line,
            column,
        },
        Bad::LongNumber => LexFault::LongNumber {
            offset,
            line,
            column,
        },
        Bad::LongName => LexFault::LongName {
            offset,
            line,
            column,
        },
    }
}

fn cut(alloc: Global, bytes: &[u8]) -> Result<Vec<Token<'_>>, Stop>
    requires { length bytes.now < 2 ^ 32 - 1 }
    ensures lexed { Lexes (λ v. map placed v.items) result (tokens_of bytes.now) }
    ensures known { IfOk result (λ v. AreTokens bytes.now (map placed v.items)) }
{
    match std::str::from_utf8(bytes) {
        Ok(text) => lex(alloc, true, text),
        Err(e) => match std::str::from_utf8(&bytes[..e.valid_up_to()]) {
            Ok(text) => lex(alloc, false, text),
            Err(_) => unreachable!(),
        },
    }
}

/// The one list of tokens of a text, the longest first from the start on, with the end token last; or the first bad
/// place. Names are identifiers of Unicode UAX 31 and `_`; their text borrows the bytes.
pub fn tokens(alloc: Global, bytes: &[u8]) -> Result<Tokens<'_>, LexFault>
    requires { length bytes.now < 2 ^ 32 - 1 }
    // Ok has the one list of tokens; a fault is the first bad place.
    ensures exact { Answers result (tokens_of bytes.now) }
    ensures tokens { IfOk result (AreTokens bytes.now) }
{
    let items = cut(alloc, bytes)?;
    Ok(Tokens::new(items))
}
