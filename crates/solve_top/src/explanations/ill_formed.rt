//! What is ill-formed, and what would not be.

use crate::explanations::choices::push_choices;
use crate::explanations::near::nearest;
use crate::explanations::parts::{Part, push_parts, push_text};
use crate::explanations::statements::{
    Head, head_of, heads, is_word, line_count, names_in_parentheses,
};
use cyc_basics::memory::OutOfMemory;
use cyc_lex::{IllFault, Token};
use std::alloc::Global;

/// Appends the names that are defined.
fn push_defined(alloc: Global, out: &mut String, heads: &[Head<'_>]) -> Result<(), OutOfMemory> {
    let mut names = Vec::new(alloc);
    for head in heads {
        names.push(Part::Name(head.name))?;
    }
    match names.len() {
        0 => push_text(out, "the text has no definitions"),
        1 => {
            push_choices(out, names.as_slice(), "")?;
            push_text(out, " is defined")
        }
        _ => {
            push_choices(out, names.as_slice(), " and ")?;
            push_text(out, " are defined")
        }
    }
}

fn push_unknown(
    alloc: Global,
    out: &mut String,
    heads: &[Head<'_>],
    name: &str,
) -> Result<(), OutOfMemory> {
    push_parts(
        out,
        &[
            Part::Text("no definition has the name "),
            Part::Name(name),
            Part::Text("; "),
        ],
    )?;
    match nearest(alloc, heads, name)? {
        Some(head) => push_parts(out, &[Part::Name(head.name), Part::Text(" is defined")]),
        None => push_defined(alloc, out, heads),
    }
}

fn arguments_word(count: usize) -> &'static str {
    if count == 1 {
        " argument, "
    } else {
        " arguments, "
    }
}

/// Appends how many arguments are given.
fn push_given(out: &mut String, count: usize) -> Result<(), OutOfMemory> {
    match count {
        0 => push_text(out, "none is given"),
        1 => push_text(out, "1 is given"),
        _ => push_parts(out, &[Part::Number(count as u64), Part::Text(" are given")]),
    }
}

/// Appends how many arguments a predicate takes, and how many are given in the tokens behind its name.
fn push_arity(
    out: &mut String,
    heads: &[Head<'_>],
    name: &str,
    behind: &[Token<'_>],
) -> Result<(), OutOfMemory> {
    let Some(head) = head_of(heads, name) else {
        return push_text(out, "the definition has another number of parameters");
    };
    push_parts(
        out,
        &[
            Part::Name(name),
            Part::Text(" takes "),
            Part::Number(head.arity as u64),
            Part::Text(arguments_word(head.arity)),
        ],
    )?;
    push_given(out, names_in_parentheses(behind))
}

/// Appends what has a name twice, where these tokens stand before the second one.
fn push_duplicate(
    out: &mut String,
    heads: &[Head<'_>],
    name: &str,
    before: &[Token<'_>],
) -> Result<(), OutOfMemory> {
    match before.last() {
        Some(token) if is_word(token, "pred") => match head_of(heads, name) {
            Some(head) => push_parts(
                out,
                &[
                    Part::Name(name),
                    Part::Text(" is defined in line "),
                    Part::Number(head.line as u64),
                    Part::Text(" already"),
                ],
            ),
            None => push_parts(out, &[Part::Name(name), Part::Text(" is defined already")]),
        },
        _ => push_parts(
            out,
            &[
                Part::Name(name),
                Part::Text(" is a parameter of this definition already"),
            ],
        ),
    }
}

/// Appends which lines a program with so many has.
fn push_lines(out: &mut String, count: usize) -> Result<(), OutOfMemory> {
    match count {
        0 => push_text(out, "the text has no program"),
        1 => push_text(out, "the program has line 1 alone"),
        _ => push_parts(
            out,
            &[
                Part::Text("the program has lines 1 to "),
                Part::Number(count as u64),
            ],
        ),
    }
}

/// Appends what helps with the number of a line or, if so, of an end, so many lines standing before.
fn push_numbering(out: &mut String, is_end: bool, count: usize) -> Result<(), OutOfMemory> {
    if is_end {
        return push_text(out, "ends stand in the order of their lines, one at each");
    }
    push_parts(
        out,
        &[
            Part::Text("line "),
            Part::Number(count as u64),
            Part::Text(" was expected"),
        ],
    )
}

/// Appends what helps with the number of a line that the text does not have or, if so, of an end at such a line or one
/// that is no `stop`, of a program of so many lines.
fn push_no_line(out: &mut String, is_end: bool, count: usize) -> Result<(), OutOfMemory> {
    if is_end {
        return push_text(out, "an end has the number of a line with \"stop\"");
    }
    push_lines(out, count)
}

/// Appends what helps with a fault at the token with this number.
pub fn push_ill_formed(
    alloc: Global,
    out: &mut String,
    tokens: &[Token<'_>],
    token: usize,
    fault: IllFault,
) -> Result<(), OutOfMemory> {
    let at = token.min(tokens.len());
    let (before, rest) = tokens.split_at(at);
    let (name, behind) = match rest.split_first() {
        Some((token, behind)) => (token.text, behind),
        None => ("", rest),
    };
    let heads = heads(alloc, tokens)?;
    let is_end = match before.last() {
        Some(token) => is_word(token, "ends"),
        None => false,
    };
    match fault {
        IllFault::Duplicate => push_duplicate(out, heads.as_slice(), name, before),
        IllFault::Unknown => push_unknown(alloc, out, heads.as_slice(), name),
        IllFault::Arity => push_arity(out, heads.as_slice(), name, behind),
        IllFault::Numbering => push_numbering(out, is_end, line_count(before)),
        IllFault::Jump => push_lines(out, line_count(tokens)),
        IllFault::NoLine => push_no_line(out, is_end, line_count(tokens)),
        IllFault::FallsOff => push_text(out, "the last line has to be \"stop\" or \"goto\""),
        IllFault::Parameter => push_text(out, "the definition has fewer parameters"),
        IllFault::Address => push_text(out, "an address is not 0, and no other cell has it"),
        IllFault::Constant => push_text(out, "the first constructor takes no arguments"),
    }
}
