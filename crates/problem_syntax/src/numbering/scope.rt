//! How the names of a heap are numbered.

ghost use Rattle.std.specs.Prelude.{◌≡◌};
ghost use Rattle.problem_syntax.specs.Trees.{named_of};
ghost use Rattle.problem_syntax.specs.Numbering.{universal as universal_of, existential as existential_of};
ghost use Rattle.problem_syntax.specs.Numbering.{variable as variable_of, term as term_of};
ghost use Rattle.problem_syntax.specs.Views.{name_of, names_of, scope_of};

use crate::NameTree;
use crate::numbering::names::{NameUse, Names};
use crate::numbering::tree::NumberedTerm;

/// The names that number a heap.
#[derive(Clone, Copy)]
pub enum Scope<'s, 'a> {
    /// The parameters and the locals of a case.
    Case(&'s Names<'a>, &'s Names<'a>),
    /// The universal variables of a goal.
    Antecedent(&'s Names<'a>),
    /// The universal variables of a goal, and the existential ones of the disjunct.
    Disjunct(&'s Names<'a>, &'s Names<'a>),
}

fn universal<'a>(names: &Names<'a>, name: NameUse<'a>) -> NumberedTerm
    ensures { result ≡ universal_of (names_of names.now) (name_of name.entry) }
{
    NumberedTerm::Universal(names.place_of(name), name.primed)
}

fn existential<'a>(names: &Names<'a>, name: NameUse<'a>) -> NumberedTerm
    ensures { result ≡ existential_of (names_of names.now) (name_of name.entry) }
{
    NumberedTerm::Existential(names.place_of(name), name.primed)
}

fn variable<'a>(scope: &Scope<'_, 'a>, name: NameUse<'a>) -> NumberedTerm
    ensures { result ≡ variable_of (scope_of scope.now) (name_of name.entry) }
{
    match scope {
        Scope::Case(parameters, locals) => {
            if parameters.has(name) {
                universal(parameters, name)
            } else {
                existential(locals, name)
            }
        }
        Scope::Antecedent(universals) => universal(universals, name),
        Scope::Disjunct(universals, existentials) => {
            if name.primed {
                existential(existentials, name)
            } else {
                universal(universals, name)
            }
        }
    }
}

/// A term with its number.
pub fn term<'a>(scope: &Scope<'_, 'a>, tree: NameTree<'a>) -> NumberedTerm
    ensures { result ≡ term_of (scope_of scope.now) (named_of tree.entry) }
{
    match tree {
        NameTree::Nil => NumberedTerm::Nil,
        NameTree::Plain(text) => variable(
            scope,
            NameUse {
                text,
                primed: false,
            },
        ),
        NameTree::Primed(text) => variable(scope, NameUse { text, primed: true }),
    }
}
