//! What helps with mistakes that are often made.

use crate::explanations::candidates::Expected;
use crate::explanations::statements::{Statement, is_name, last_statement};
use cyc_lex::Token;

const PURE_FIRST: &str =
    "pure atoms or \"true\" and then \":\" stand before the spatial atoms, as in true : ls(x, y)";

const SEPARATORS: &str =
    "the cases of a definition are parted by \"|\", the disjuncts of a goal by \"or\"";

const COMMANDS: &str =
    "a command is \"stop\", \"goto\", \"free\" or \"if\", or sets a variable or a field";

const ENDS: &str = "only version 3 has ends of programs";

const CONJUNCTIONS: &str = "pure atoms are parted by \",\", spatial atoms by \"*\"";

/// What helps where a prime stands behind these tokens and may not.
fn on_prime(before: &[Token<'_>]) -> Option<&'static str> {
    match last_statement(before) {
        Statement::Definition => {
            Some("a name in a definition has no prime: one that is no parameter is a local")
        }
        Statement::Line => Some("a name in a program has no prime"),
        _ => None,
    }
}

/// What helps where a parenthesis is opened behind these tokens and may not be.
fn on_opening(before: &[Token<'_>], expected: &Expected) -> Option<&'static str> {
    match last_statement(before) {
        Statement::Line if expected.has(";") => Some("a cell is made by \"new\", as in x := new 1"),
        Statement::Line => None,
        _ if expected.has("!=") => Some(PURE_FIRST),
        _ => None,
    }
}

/// What helps by the token that was found.
fn on_found(found: &Token<'_>, before: &[Token<'_>], expected: &Expected) -> Option<&'static str> {
    match found.text {
        "'" => on_prime(before),
        "(" => on_opening(before, expected),
        "->" if expected.has("!=") => Some(PURE_FIRST),
        "emp" if expected.has("true") => Some(PURE_FIRST),
        "|" if expected.has("or") => Some(SEPARATORS),
        "or" if expected.has("|") => Some(SEPARATORS),
        "ends" if expected.has("goal") && !expected.has("ends") => Some(ENDS),
        _ => None,
    }
}

/// What helps by the token before.
fn on_last(found: &Token<'_>, last: &Token<'_>, expected: &Expected) -> Option<&'static str> {
    match last.text {
        "if" if found.text == "*" => Some("version 1 has no \"if *\""),
        "=" if found.text == "=" => Some("an equation has one \"=\""),
        "->" => Some("the fields of a cell stand in parentheses, as in x -> (y)"),
        "." => Some("the fields of a cell are numbered, from 1 on"),
        "false" => Some("\"false\" is a name; nil != nil : emp holds of no heap"),
        _ if expected.has(":=") && expected.has(".") && is_name(found) => Some(COMMANDS),
        _ => None,
    }
}

/// What helps where a token was found behind others that is not among those that may stand there.
pub fn on_token(
    found: &Token<'_>,
    before: &[Token<'_>],
    expected: &Expected,
) -> Option<&'static str> {
    if let Some(advice) = on_found(found, before, expected) {
        return Some(advice);
    }
    on_last(found, before.last()?, expected)
}

/// What helps where a character begins no token.
pub fn on_character(c: char) -> Option<&'static str> {
    match c {
        '&' | '∧' => Some(CONJUNCTIONS),
        '∨' => Some(SEPARATORS),
        '>' | '↦' | '→' => Some("a cell is written with \"->\", as in x -> (y)"),
        '-' => Some("\"->\" or \"|-\" is meant?"),
        '⊢' => Some("\"|-\" is meant?"),
        '!' | '≠' => Some("\"!=\" is meant?"),
        '∗' => Some("\"*\" is meant?"),
        '<' => Some("atoms have \"=\" and \"!=\" alone"),
        '+' => Some("there is no arithmetic"),
        '/' | '%' => Some("a comment begins with \"#\""),
        '\u{FEFF}' => Some("it is a byte order mark, which has to go"),
        _ => None,
    }
}
