// Whether an input is a run or a problem.
ghost use Rattle.std.specs.Prelude.{◌≡◌, ◌≤◌, length, map, IfOk};
ghost use Rattle.cyc_lex.specs.Placed.{placed};
ghost use Rattle.cyc_runs.specs.Runs.{input_limit};
ghost use Rattle.solve_top.specs.Inputs.{are_of_run as are_tokens_of_run, is_run_text as is_of_run};
ghost use Rattle.solve_top.specs.Inputs.{is_run_word as is_word_run};

use cyc_basics::memory::OutOfMemory;
use cyc_lex::{Kind, LexFault, Token, tokens};
use std::alloc::Global;

fn is_run_word(token: Token<'_>) -> bool
    ensures { result ≡ is_word_run (placed token.entry) }
{
    match token.kind {
        Kind::Name => token.text == "run",
        Kind::Number | Kind::Symbol | Kind::End => false,
    }
}

fn are_of_run(tokens: &[Token<'_>]) -> bool
    ensures { result ≡ are_tokens_of_run (map placed tokens.now) }
{
    match tokens {
        [_, second, ..] => is_run_word(*second),
        _ => false,
    }
}

/// Whether the input is to be read as a run file: its second token is the word `run`.
pub fn is_run_text(alloc: Global, input: &[u8]) -> Result<bool, OutOfMemory>
    requires { length input.now ≤ input_limit }
    ensures { IfOk result (λ b. b ≡ is_of_run input.now) }
{
    match tokens(alloc, input) {
        Ok(tokens) => Ok(are_of_run(tokens.as_slice())),
        Err(LexFault::OutOfMemory) => Err(OutOfMemory),
        Err(_) => Ok(false),
    }
}
