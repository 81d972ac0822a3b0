// A walk over atoms in the order of their tokens, up to the first flaw. Each function is given the number of the part's
// first token and gives that of the token after it and the one that follows every part of its kind.
ghost use Rattle.std.specs.Prelude.{◌+◌, ◌<◌, ◌^◌};
ghost use Rattle.heap_syntax.specs.Trees.{Cell, Predicate};
ghost use Rattle.heap_reader.specs.Trees.{spatial_of};
ghost use Rattle.heap_reader.specs.Spans.{total, total_or, pure_span, pures_span, spatial_span};
ghost use Rattle.heap_reader.specs.Flaws.{listed_flaw, argument_flaw, arguments_flaw, pure_flaw, arity_in, use_flaw};
ghost use Rattle.heap_reader.specs.Flaws.{cell_flaw, spatial_flaw, IsName, IsWalk};

use crate::flaw::{Flaw, ill, over};
use crate::form::TermReader;
use crate::head::Heads;
use cyc_basics::limits::Limits;
use cyc_lex::{IllFault, What};
use heap_syntax::{PureTree, SpatialTree};

fn argument<F: TermReader>(
    form: &F,
    most: Limits,
    n: usize,
    at: usize,
    term: F::Term,
) -> Result<usize, Flaw>
    requires { at + F.span term < 2 ^ 64 }
    ensures { IsWalk result (argument_flaw (F.flaw form.now) F.span most n at term) (at + F.span term) }
{
    if n >= most.arguments as usize {
        return Err(over(What::Arguments, at));
    }
    form.walk(at, term)
}

/// Fields or arguments, from the first on.
fn arguments<F: TermReader>(
    form: &F,
    most: Limits,
    at: usize,
    terms: &[F::Term],
) -> Result<usize, Flaw>
    requires { at + total F.span terms.now < 2 ^ 64 }
    ensures { IsWalk result (arguments_flaw (F.flaw form.now) F.span most at terms.now) (at + total F.span terms.now) }
{
    let mut next = at;
    for (n, term) in terms.iter().enumerate() {
        next = argument(form, most, n, next, *term)?;
    }
    Ok(next)
}

fn pure_atom<F: TermReader>(
    form: &F,
    most: Limits,
    n: usize,
    at: usize,
    tree: PureTree<F::Term>,
) -> Result<usize, Flaw>
    requires { at + pure_span F.span tree < 2 ^ 64 }
    ensures { IsWalk result (pure_flaw (F.flaw form.now) F.span most n at tree) (at + pure_span F.span tree) }
{
    if n >= most.pure as usize {
        return Err(over(What::Pure, at));
    }
    let right = form.walk(at, tree.left)?;
    form.walk(right, tree.right)
}

fn pure_atoms<F: TermReader>(
    form: &F,
    most: Limits,
    at: usize,
    trees: &[PureTree<F::Term>],
) -> Result<usize, Flaw>
    requires { at + total (pure_span F.span) trees.now < 2 ^ 64 }
    ensures { IsWalk result (listed_flaw (pure_flaw (F.flaw form.now) F.span most) (pure_span F.span) 0 at trees.now)
        (at + total (pure_span F.span) trees.now) }
{
    let mut next = at;
    for (n, tree) in trees.iter().enumerate() {
        next = pure_atom(form, most, n, next, *tree)?;
    }
    Ok(next)
}

/// The pure atoms of a heap, or the word `true`.
pub fn pure_part<F: TermReader>(
    form: &F,
    most: Limits,
    at: usize,
    trees: &[PureTree<F::Term>],
) -> Result<usize, Flaw>
    requires { at + pures_span F.span trees.now < 2 ^ 64 }
    ensures { IsWalk result (listed_flaw (pure_flaw (F.flaw form.now) F.span most) (pure_span F.span) 0 at trees.now)
        (at + pures_span F.span trees.now) }
{
    match trees {
        [] => Ok(at + 2),
        _ => pure_atoms(form, most, at, trees),
    }
}

/// A cell before which n spatial atoms stand.
fn cell<F: TermReader>(
    form: &F,
    most: Limits,
    n: usize,
    at: usize,
    address: F::Term,
    fields: &[F::Term],
) -> Result<usize, Flaw>
    requires { at + spatial_span F.span (Cell address fields.now) < 2 ^ 64 }
    ensures { IsWalk result (cell_flaw (F.flaw form.now) F.span most n at address fields.now)
        (at + spatial_span F.span (Cell address fields.now)) }
{
    if n >= most.spatial as usize {
        return Err(over(What::Spatial, at));
    }
    let open = form.walk(at, address)?;
    let behind = arguments(form, most, open + 1, fields)?;
    Ok(behind + 1)
}

/// The arguments of a predicate and the parenthesis after them.
fn argument_part<F: TermReader>(
    form: &F,
    most: Limits,
    at: usize,
    terms: &[F::Term],
) -> Result<usize, Flaw>
    requires { at + total_or 1 F.span terms.now < 2 ^ 64 }
    ensures { IsWalk result (arguments_flaw (F.flaw form.now) F.span most at terms.now)
        (at + total_or 1 F.span terms.now) }
{
    match terms {
        [] => Ok(at + 1),
        _ => arguments(form, most, at, terms),
    }
}

/// The name of a predicate with so many arguments.
fn predicate_name(heads: &Heads<'_>, at: usize, name: &str, n: usize) -> Result<(), Flaw>
    ensures { IsName result (use_flaw (arity_in heads.now name.now) n at) }
{
    match heads.arity_of(name) {
        None => Err(ill(IllFault::Unknown, at)),
        Some(arity) => {
            if n != arity as usize {
                return Err(ill(IllFault::Arity, at));
            }
            Ok(())
        }
    }
}

fn predicate<F: TermReader>(
    heads: &Heads<'_>,
    form: &F,
    most: Limits,
    n: usize,
    at: usize,
    name: &str,
    args: &[F::Term],
) -> Result<usize, Flaw>
    requires { at + spatial_span F.span (Predicate name.now args.now) < 2 ^ 64 }
    ensures { IsWalk result (spatial_flaw (F.flaw form.now) F.span most heads.now n at (Predicate name.now args.now))
        (at + spatial_span F.span (Predicate name.now args.now)) }
{
    predicate_name(heads, at, name, args.len())?;
    if n >= most.spatial as usize {
        return Err(over(What::Spatial, at));
    }
    let behind = argument_part(form, most, at + 2, args)?;
    Ok(behind + 1)
}

/// A spatial atom before which n stand.
pub fn spatial_atom<F: TermReader>(
    heads: &Heads<'_>,
    form: &F,
    most: Limits,
    n: usize,
    at: usize,
    tree: &SpatialTree<'_, F::Term>,
) -> Result<usize, Flaw>
    requires { at + spatial_span F.span (spatial_of tree.now) < 2 ^ 64 }
    ensures { IsWalk result (spatial_flaw (F.flaw form.now) F.span most heads.now n at (spatial_of tree.now))
        (at + spatial_span F.span (spatial_of tree.now)) }
{
    match tree {
        SpatialTree::Cell(address, fields) => cell(form, most, n, at, *address, fields),
        SpatialTree::Predicate(name, args) => predicate(heads, form, most, n, at, name, args),
    }
}
