//! What the tokens of a problem say of its statements. The words that begin statements are reserved, so each of them
//! stands at the start of one; `ends` alone is not, and begins one where a number stands behind it.

use cyc_basics::memory::OutOfMemory;
use cyc_lex::{Kind, Token};
use std::alloc::Global;

/// The head of a definition: the predicate's name, how many parameters it has, and the line where it stands.
#[derive(Clone, Copy)]
pub struct Head<'a> {
    pub name: &'a str,
    pub arity: usize,
    pub line: u32,
}

/// What kind of statement a token stands in.
#[derive(Clone, Copy)]
pub enum Statement {
    Heading,
    Definition,
    Line,
    End,
    Goal,
}

pub fn is_name(token: &Token<'_>) -> bool {
    match token.kind {
        Kind::Name => true,
        _ => false,
    }
}

fn is_number(token: &Token<'_>) -> bool {
    match token.kind {
        Kind::Number => true,
        _ => false,
    }
}

/// Whether a token is this name.
pub fn is_word(token: &Token<'_>, text: &str) -> bool {
    match token.kind {
        Kind::Name => token.text == text,
        _ => false,
    }
}

/// How many names stand before the next closing parenthesis: of the parameters of a head, or of the arguments of an
/// atom.
pub fn names_in_parentheses(tokens: &[Token<'_>]) -> usize {
    tokens
        .iter()
        .take_while(|token| token.text != ")" && token.text != "pred")
        .filter(|token| is_name(token))
        .count()
}

/// The head that stands behind the word `pred`.
fn head_behind<'a>(tokens: &[Token<'a>]) -> Option<Head<'a>> {
    let (name, behind) = tokens.split_first()?;
    Some(Head {
        name: name.text,
        arity: names_in_parentheses(behind),
        line: name.line,
    })
}

/// The heads of the definitions, in the order of the text.
pub fn heads<'a>(alloc: Global, tokens: &[Token<'a>]) -> Result<Vec<Head<'a>>, OutOfMemory> {
    let mut heads = Vec::new(alloc);
    for (i, token) in tokens.iter().enumerate() {
        if is_word(token, "pred")
            && let Some(head) = head_behind(&tokens[i + 1..])
        {
            heads.push(head)?;
        }
    }
    Ok(heads)
}

/// The first head with this name.
pub fn head_of<'a>(heads: &[Head<'a>], name: &str) -> Option<Head<'a>> {
    heads.iter().find(|head| head.name == name).copied()
}

/// How many lines a program has.
pub fn line_count(tokens: &[Token<'_>]) -> usize {
    tokens.iter().filter(|token| is_word(token, "line")).count()
}

/// The kind of the statement that these tokens end in.
pub fn last_statement(tokens: &[Token<'_>]) -> Statement {
    let mut is_numbered = false;
    for token in tokens.iter().rev() {
        if is_numbered && is_word(token, "ends") {
            return Statement::End;
        }
        is_numbered = is_number(token);
        if is_word(token, "pred") {
            return Statement::Definition;
        }
        if is_word(token, "line") {
            return Statement::Line;
        }
        if is_word(token, "goal") {
            return Statement::Goal;
        }
    }
    Statement::Heading
}
