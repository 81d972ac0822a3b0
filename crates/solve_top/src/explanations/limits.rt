//! The limits of problem files, in words.

use crate::explanations::parts::{Part, push_parts};
use cyc_basics::limits::{
    MOST_CONSTRUCTORS, MOST_DISJUNCTS, MOST_LEFT, MOST_LINES, MOST_NODES, MOST_PREDICATES,
    MOST_TERMS, MOST_VALUES, MOST_VARIABLES, VARIABLE_NUMBERS,
};
use cyc_basics::memory::OutOfMemory;
use cyc_lex::{Token, What};
use heap_syntax::Version;

/// What has a limit, how great that is, and what is counted.
#[derive(Clone, Copy)]
struct Limit {
    owner: &'static str,
    most: usize,
    counted: &'static str,
}

fn limit_of(what: What, version: Version) -> Limit {
    let limits = version.limits();
    let (owner, most, counted) = match what {
        What::Predicates => ("a text", MOST_PREDICATES, "definitions"),
        What::Arguments => (
            "a predicate or a cell",
            limits.arguments as usize,
            "arguments or fields",
        ),
        What::Cases => ("a definition", limits.cases as usize, "cases"),
        What::Pure => ("a heap", limits.pure as usize, "pure atoms"),
        What::Spatial => ("a heap", limits.spatial as usize, "spatial atoms"),
        What::Locals => (
            "a case",
            limits.locals as usize,
            "names that are no parameters",
        ),
        What::Disjuncts => ("a goal", MOST_DISJUNCTS, "disjuncts"),
        What::Lines => ("a program", MOST_LINES, "lines"),
        What::ProgramVariables => ("a program", MOST_VARIABLES as usize, "variables"),
        What::Fields => (
            "a cell",
            limits.arguments as usize,
            "fields, the first with number 1",
        ),
        What::Nodes => ("a proof", MOST_NODES, "nodes"),
        What::Variable => ("a goal", VARIABLE_NUMBERS as usize, "variables"),
        What::Stack => ("a stack", MOST_VALUES, "values"),
        What::Cells => ("a model", limits.cells as usize, "cells"),
        What::Constructors => ("a theory", MOST_CONSTRUCTORS, "constructors"),
        What::Atoms => ("a side", MOST_LEFT, "atoms"),
        What::Terms => ("a sequent", MOST_TERMS, "terms"),
    };
    Limit {
        owner,
        most,
        counted,
    }
}

/// The version that the first statement names.
fn version_of(tokens: &[Token<'_>]) -> Version {
    match tokens.get(2) {
        Some(token) if token.text == "2" => Version::Two,
        Some(token) if token.text == "3" => Version::Three,
        _ => Version::One,
    }
}

/// What stands between the owner and the number.
fn verb(what: What) -> &'static str {
    match what {
        What::Fields => " has 1 to ",
        _ => " has at most ",
    }
}

/// Appends the limit that a text passes.
pub fn push_limit(out: &mut String, tokens: &[Token<'_>], what: What) -> Result<(), OutOfMemory> {
    let version = version_of(tokens);
    let limit = limit_of(what, version);
    push_parts(
        out,
        &[
            Part::Text(limit.owner),
            Part::Text(verb(what)),
            Part::Number(limit.most as u64),
            Part::Text(" "),
            Part::Text(limit.counted),
        ],
    )?;
    push_wider(out, what, version, limit.most)
}

/// Appends the first later version that allows more, if there is one.
fn push_wider(
    out: &mut String,
    what: What,
    version: Version,
    most: usize,
) -> Result<(), OutOfMemory> {
    let later: &[(Version, u64)] = match version {
        Version::One => &[(Version::Two, 2), (Version::Three, 3)],
        Version::Two => &[(Version::Three, 3)],
        Version::Three => &[],
    };
    for (wider, number) in later {
        let limit = limit_of(what, *wider);
        if limit.most > most {
            return push_parts(
                out,
                &[
                    Part::Text("; in version "),
                    Part::Number(*number),
                    Part::Text(" it has at most "),
                    Part::Number(limit.most as u64),
                ],
            );
        }
    }
    Ok(())
}
