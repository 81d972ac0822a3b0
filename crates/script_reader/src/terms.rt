// Terms: variables, constants and `nil`.
ghost use Rattle.script_reader.specs.Telling.{IsPlace, Tells};

use crate::faults::{IllScript, ScriptFault, Unsupported, ill, unsupported_at};
use crate::globals::{Function, Globals, finished, head_at, next_tree, symbol};
use crate::scopes::{Binding, Scopes, Sorted};
use crate::trees::{AtomKind, NodeKind, Trees};
use crate::words::Head;
use script_formulas::Term;

/// Where constants have values: in an assert, or not, as in a recursive definition.
#[derive(Clone, Copy, PartialEq, Eq)]
pub enum Place {
    Assert,
    Definition,
}

/// What a formula is read over.
#[derive(Clone, Copy)]
pub struct Reading<'t, 'a> {
    pub trees: &'t Trees<'a>,
    pub globals: &'t Globals<'a>,
    pub place: Place,
}

/// `nil` of any sort.
const NIL: Sorted = Sorted {
    term: Term::Nil,
    sort: None,
};

/// A constant of the script.
fn constant(reading: Reading<'_, '_>, number: u16, at: usize) -> Result<Sorted, ScriptFault>
    ensures { IsPlace reading.entry.trees.now at → Tells reading.entry.trees.now result }
{
    if reading.place == Place::Definition {
        return unsupported_at(Unsupported::Constant, at);
    }
    match reading.globals.constants.get(number as usize) {
        Some(constant) => Ok(Sorted {
            term: Term::Univ(number),
            sort: Some(constant.sort),
        }),
        None => ill(IllScript::Unknown, at),
    }
}

/// A name that no scope has.
fn global(reading: Reading<'_, '_>, tree: usize) -> Result<Sorted, ScriptFault>
    ensures { Tells reading.entry.trees.now result }
{
    let at = reading.trees.offset(tree);
    let name = reading.trees.text(tree);
    match reading.globals.function(name) {
        Some(Function::Constant(number)) => constant(reading, number, at),
        Some(Function::Predicate(_) | Function::Macro(_)) => ill(IllScript::Sort, at),
        Some(Function::Constructor(_)) => unsupported_at(Unsupported::Nested, at),
        Some(Function::Selector) => ill(IllScript::Arity, at),
        None => match head_at(reading.trees, tree) {
            Some(Head::Nil) => Ok(NIL),
            Some(Head::Theory) => unsupported_at(Unsupported::Theory, at),
            Some(_) => unsupported_at(Unsupported::Connective, at),
            None => ill(IllScript::Unknown, at),
        },
    }
}

/// `(as nil S)`.
fn cast(reading: Reading<'_, '_>, tree: usize) -> Result<Sorted, ScriptFault>
    ensures { Tells reading.entry.trees.now result }
{
    let trees = reading.trees;
    let mut items = trees.items(tree);
    let _as = next_tree(trees, tree, &mut items)?;
    let what = next_tree(trees, tree, &mut items)?;
    if head_at(trees, what) != Some(Head::Nil) {
        return unsupported_at(Unsupported::Term, trees.offset(what));
    }
    let sort = next_tree(trees, tree, &mut items)?;
    let sort = reading.globals.location(trees, sort)?;
    finished(trees, &mut items)?;
    Ok(Sorted {
        term: Term::Nil,
        sort: Some(sort),
    })
}

/// A term that is a list.
fn compound(reading: Reading<'_, '_>, tree: usize) -> Result<Sorted, ScriptFault>
    ensures { Tells reading.entry.trees.now result }
{
    let trees = reading.trees;
    let mut items = trees.items(tree);
    let first = next_tree(trees, tree, &mut items)?;
    let at = trees.offset(first);
    let Some(name) = symbol(trees, first) else {
        return unsupported_at(Unsupported::Term, at);
    };
    match head_at(trees, first) {
        Some(Head::Cast) => cast(reading, tree),
        Some(Head::Theory | Head::Indexed) => unsupported_at(Unsupported::Theory, at),
        Some(Head::Let | Head::IfThenElse | Head::Annotated) => unsupported_at(
            Unsupported::Term,
            at,
        ),
        Some(_) => unsupported_at(Unsupported::Connective, at),
        None => match reading.globals.function(name) {
            Some(Function::Constructor(_)) => unsupported_at(Unsupported::Nested, at),
            Some(Function::Selector) => unsupported_at(Unsupported::Term, at),
            Some(Function::Predicate(_) | Function::Macro(_)) => ill(IllScript::Sort, at),
            Some(Function::Constant(_)) => ill(IllScript::Arity, at),
            None => ill(IllScript::Unknown, at),
        },
    }
}

/// The term that a tree is in a scope.
pub fn term<'a>(
    reading: Reading<'_, 'a>,
    scopes: &Scopes<'a>,
    tree: usize,
    scope: usize,
) -> Result<Sorted, ScriptFault>
    ensures { Tells reading.entry.trees.now result }
{
    let trees = reading.trees;
    let at = trees.offset(tree);
    match trees.kind(tree) {
        NodeKind::Atom(AtomKind::Symbol | AtomKind::Quoted) => {
            let name = trees.text(tree);
            match scopes.find(scope, name) {
                Some(Binding::Term(sorted)) => Ok(sorted),
                Some(Binding::Formula { .. }) => ill(IllScript::Sort, at),
                None => global(reading, tree),
            }
        }
        NodeKind::Atom(AtomKind::Constant | AtomKind::Text) => unsupported_at(
            Unsupported::Theory,
            at,
        ),
        NodeKind::Atom(AtomKind::Keyword) => Err(ScriptFault::Syntax(at)),
        NodeKind::List => compound(reading, tree),
    }
}

/// A term of a sort.
pub fn term_of<'a>(
    reading: Reading<'_, 'a>,
    scopes: &Scopes<'a>,
    tree: usize,
    scope: usize,
    sort: u16,
) -> Result<Term, ScriptFault>
    ensures { Tells reading.entry.trees.now result }
{
    let sorted = term(reading, scopes, tree, scope)?;
    match sorted.sort {
        Some(other) if other != sort => ill(IllScript::Sort, reading.trees.offset(tree)),
        _ => Ok(sorted.term),
    }
}
