//! A walk over a problem's definitions in the order of their tokens, up to the first flaw. Each function is given the
//! number of the part's first token and gives that of the token after it and the one that follows every part of its
//! kind.

ghost use Rattle.std.specs.Prelude.{◌≡◌, ◌+◌, ◌<◌, ◌≤◌, ◌^◌, length, map, take};
ghost use Rattle.std.specs.List.{list_any};
ghost use Rattle.std.specs.Str.{bytes_eq};
ghost use Rattle.heap_reader.specs.Spans.{total};
ghost use Rattle.heap_reader.specs.Flaws.{IsWalk};
ghost use Rattle.problem_syntax.specs.Trees.{text_of};
ghost use Rattle.problem_syntax.specs.Numbered.{definition_of};
ghost use Rattle.formula_reader.specs.Spans.{parameter_span, parameters_span, definition_span, definitions_span};
ghost use Rattle.formula_reader.specs.Flaws.{parameter_flaw, parameters_flaw, head_flaw, definition_flaw};
ghost use Rattle.formula_reader.specs.Flaws.{definitions_flaw};

use crate::terms::Scope;
use cyc_basics::limits::{Limits, MOST_PREDICATES};
use cyc_lex::{IllFault, What};
use heap_reader::{Flaw, Heads, ill, over, walk_heaps};
use problem_syntax::numbering::NumberedDefinition;

/// Whether one of the texts is this one.
fn is_among(texts: &[&str], text: &str) -> bool
    ensures { result ≡ list_any (bytes_eq text.now) (map text_of texts.now) }
{
    for known in texts {
        if text == *known {
            return true;
        }
    }
    false
}

/// Whether one of the first texts is this one.
fn is_before(texts: &[&str], n: usize, text: &str) -> bool
    requires { n ≤ length texts.now }
    ensures { result ≡ list_any (bytes_eq text.now) (take n (map text_of texts.now)) }
{
    is_among(&texts[..n], text)
}

fn parameter(
    most: Limits,
    parameters: &[&str],
    n: usize,
    at: usize,
    text: &str,
) -> Result<usize, Flaw>
    requires there { n ≤ length parameters.now }
    requires fits { at + 2 < 2 ^ 64 }
    ensures { IsWalk result (parameter_flaw most (map text_of parameters.now) n at text.now) (at + 2) }
{
    if is_before(parameters, n, text) {
        return Err(ill(IllFault::Duplicate, at));
    }
    if n >= most.arguments as usize {
        return Err(over(What::Arguments, at));
    }
    Ok(at + 2)
}

fn some_parameters(most: Limits, parameters: &[&str], at: usize) -> Result<usize, Flaw>
    requires { at + total parameter_span (map text_of parameters.now) < 2 ^ 64 }
    ensures { IsWalk result (parameters_flaw most at (map text_of parameters.now))
        (at + total parameter_span (map text_of parameters.now)) }
{
    let mut next = at;
    for (n, text) in parameters.iter().enumerate() {
        next = parameter(most, parameters, n, next, text)?;
    }
    Ok(next)
}

/// The parameters of a predicate and the parenthesis after them.
fn parameters(most: Limits, parameters: &[&str], at: usize) -> Result<usize, Flaw>
    requires { at + parameters_span (map text_of parameters.now) < 2 ^ 64 }
    ensures { IsWalk result (parameters_flaw most at (map text_of parameters.now))
        (at + parameters_span (map text_of parameters.now)) }
{
    match parameters {
        [] => Ok(at + 1),
        _ => some_parameters(most, parameters, at),
    }
}

/// The word, the name and the parameters of a definition, and the brace after them.
fn definition_head(
    heads: &Heads<'_>,
    most: Limits,
    n: usize,
    at: usize,
    tree: &NumberedDefinition<'_>,
) -> Result<usize, Flaw>
    requires there { n ≤ length heads.now }
    requires fits { at + definition_span (definition_of tree.now) < 2 ^ 64 }
    ensures { IsWalk result (head_flaw most heads.now n at (definition_of tree.now))
        (at + 3 + parameters_span (definition_of tree.now).parameters + 1) }
{
    if n >= MOST_PREDICATES {
        return Err(over(What::Predicates, at));
    }
    if heads.has_among(n, tree.name) {
        return Err(ill(IllFault::Duplicate, at + 1));
    }
    let behind = parameters(most, &tree.parameters, at + 3)?;
    Ok(behind + 1)
}

fn definition(
    heads: &Heads<'_>,
    most: Limits,
    n: usize,
    at: usize,
    tree: &NumberedDefinition<'_>,
) -> Result<usize, Flaw>
    requires there { n ≤ length heads.now }
    requires fits { at + definition_span (definition_of tree.now) < 2 ^ 64 }
    ensures { IsWalk result (definition_flaw most heads.now n at (definition_of tree.now))
        (at + definition_span (definition_of tree.now)) }
{
    let first = definition_head(heads, most, n, at, tree)?;
    let scope = Scope::Case {
        arity: tree.parameters.len(),
        locals: most.locals,
    };
    let behind = walk_heaps(heads, &scope, most, What::Cases, first, &tree.cases)?;
    Ok(behind + 1)
}

/// Goes over definitions, the first of which begins at a token, and gives the token after them. `most` are the
/// limits of the version.
pub fn definitions(
    heads: &Heads<'_>,
    most: Limits,
    at: usize,
    trees: &[NumberedDefinition<'_>],
) -> Result<usize, Flaw>
    requires there { length trees.now ≤ length heads.now }
    requires fits { at + definitions_span (map definition_of trees.now) < 2 ^ 64 }
    ensures { IsWalk result (definitions_flaw most heads.now at (map definition_of trees.now))
        (at + definitions_span (map definition_of trees.now)) }
{
    let mut next = at;
    for (n, tree) in trees.iter().enumerate() {
        next = definition(heads, most, n, next, tree)?;
    }
    Ok(next)
}
