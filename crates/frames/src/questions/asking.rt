// Whether a text asks for a frame.
ghost use Rattle.std.specs.Prelude.{◌≡◌, ◌<◌, ◌-◌, ◌^◌, length, map, slice_get, IfOk};
ghost use Rattle.cyc_lex.specs.Placed.{placed};
ghost use Rattle.frames.specs.Questions.{asks_frame as tokens_ask, begins_so, ends_so, has_goal};
ghost use Rattle.frames.specs.Questions.{has_token as some_token, is_at as token_is};
ghost use Rattle.frames.specs.Questions.{is_frame_text as asks_for};

use cyc_basics::memory::OutOfMemory;
use cyc_lex::{LexFault, Token, tokens};
use std::alloc::Global;

/// Whether there is a token at this place, and it has this text.
fn is_at(tokens: &[Token<'_>], place: usize, text: &str) -> bool
    ensures { result ≡ token_is (map placed tokens.now) place text.now }
{
    match tokens.get(place) {
        Some(token) => token.text == text,
        None => false,
    }
}

/// Whether some token has this text.
fn has_token(tokens: &[Token<'_>], text: &str) -> bool
    ensures { result ≡ some_token (map placed tokens.now) text.now }
{
    for token in tokens {
        if token.text == text {
            return true;
        }
    }
    false
}

/// Whether the tokens are those of a problem of version 3, as far as the first three tell.
fn begins_as_problem(tokens: &[Token<'_>]) -> bool
    ensures { result ≡ begins_so (map placed tokens.now) }
{
    is_at(tokens, 1, "problem") && is_at(tokens, 2, "3")
}

/// Whether the goal ends with a question mark, after `:`, or after `*` and not right behind `:`.
fn ends_as_question(tokens: &[Token<'_>]) -> bool
    ensures { result ≡ ends_so (map placed tokens.now) (length tokens.now) }
{
    let end = tokens.len();
    is_at(tokens, end.saturating_sub(5), "?")
        && is_at(tokens, end.saturating_sub(4), ";")
        && is_at(tokens, end.saturating_sub(3), "end")
        && is_at(tokens, end.saturating_sub(2), ";")
        && (is_at(tokens, end.saturating_sub(6), ":")
            || (is_at(tokens, end.saturating_sub(6), "*")
                && !is_at(tokens, end.saturating_sub(7), ":")))
}

/// Whether the goal is an entailment of one disjunct.
fn is_of_entailment(tokens: &[Token<'_>]) -> bool
    ensures { result ≡ has_goal (map placed tokens.now) }
{
    has_token(tokens, "|-") && !has_token(tokens, "or") && !has_token(tokens, "from")
}

fn asks_frame(tokens: &[Token<'_>]) -> bool
    ensures { result ≡ tokens_ask (map placed tokens.now) }
{
    begins_as_problem(tokens) && ends_as_question(tokens) && is_of_entailment(tokens)
}

/// Whether the input asks for a frame: it is a problem of version 3 but for the end of its goal, an entailment whose
/// only disjunct ends with `* ?`, or with `?` after its pure atoms.
#[tactic(auto, unfolding(crate::specs::Questions::is_frame_text))]
pub fn is_frame_text(alloc: Global, input: &[u8]) -> Result<bool, OutOfMemory>
    requires { length input.now < 2 ^ 32 - 1 }
    ensures { IfOk result (λ yes. yes ≡ asks_for input.now) }
{
    match tokens(alloc, input) {
        Ok(tokens) => Ok(asks_frame(tokens.as_slice())),
        Err(LexFault::OutOfMemory) => Err(OutOfMemory),
        Err(_) => Ok(false),
    }
}
