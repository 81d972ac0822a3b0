//! Terms that trees say.

ghost use Rattle.std.specs.Prelude.{◌≡◌, ◌<◌, length, map, IfOk};
ghost use Rattle.heap_formula.specs.Words.{Each};
ghost use Rattle.fo_syntax.specs.Trees.{arguments_of, sign_of};
ghost use Rattle.fo_syntax.specs.ProofTrees.{signs_of};
ghost use Rattle.fo_file.specs.Known.{IsKnownSign, AreKnownTerms, IsKnownTerm};
ghost use Rattle.fo_file.specs.Values.{first_terms, sign_value, term_value};

use cyc_basics::memory::OutOfMemory;
use fo_formula::{Sign, Term, Terms};
use fo_syntax::terms::SignTree;
use heap_reader::Heads;
use std::alloc::Global;

fn sign(constructors: &Heads<'_>, tree: SignTree<'_>) -> Sign
    requires known { IsKnownSign constructors.now (sign_of tree) }
    requires few { length constructors.now < 65536 }
    ensures { result ≡ sign_value constructors.now (sign_of tree.entry) }
{
    match tree {
        SignTree::Variable(number) => Sign::Universal(number as u16),
        SignTree::Local(number) => Sign::Local(number as u16),
        SignTree::Apply(name, arguments) => Sign::Constructor {
            number: constructors.place_of(name) as u16,
            arguments: arguments as u8,
        },
    }
}

/// The term of the signs.
pub fn term(
    alloc: Global,
    constructors: &Heads<'_>,
    trees: &[SignTree<'_>],
) -> Result<Term, OutOfMemory>
    requires known { Each (IsKnownSign constructors.now) (map sign_of trees.now) }
    requires few { length constructors.now < 65536 }
    ensures { IfOk result (λ t. t ≡ term_value constructors.now (map sign_of trees.now)) }
{
    let mut signs = Vec::with_capacity(alloc, trees.len())?;
    for tree in trees {
        signs.push(sign(constructors, *tree))?;
    }
    Ok(Term::from_vec(signs))
}

fn arguments_of_sign(tree: SignTree<'_>) -> usize
    ensures { result ≡ arguments_of (sign_of tree.entry) }
{
    match tree {
        SignTree::Variable(_) | SignTree::Local(_) => 0,
        SignTree::Apply(_, arguments) => arguments,
    }
}

/// The terms, so many, whose signs stand one after the other.
pub fn adjacent_terms(
    alloc: Global,
    constructors: &Heads<'_>,
    count: usize,
    trees: &[SignTree<'_>],
) -> Result<Terms, OutOfMemory>
    requires known { AreKnownTerms constructors.now count (map sign_of trees.now) }
    requires few { length constructors.now < 65536 }
    ensures { IfOk result (λ ts. ts ≡ first_terms count (term_value constructors.now (map sign_of trees.now))) }
{
    let mut terms = Vec::with_capacity(alloc, count)?;
    let mut signs = Vec::new(alloc);
    let mut awaited = 1;
    for tree in trees {
        signs.push(sign(constructors, *tree))?;
        awaited = awaited - 1 + arguments_of_sign(*tree);
        if awaited == 0 {
            terms.push(Term::from_vec(signs))?;
            signs = Vec::new(alloc);
            awaited = 1;
        }
    }
    Ok(Terms::from_vec(terms))
}

/// The terms that trees say, in order.
pub fn listed_terms(
    alloc: Global,
    constructors: &Heads<'_>,
    trees: &[Vec<SignTree<'_>>],
) -> Result<Terms, OutOfMemory>
    requires known { Each (IsKnownTerm constructors.now) (map signs_of trees.now) }
    requires few { length constructors.now < 65536 }
    ensures { IfOk result (λ ts. ts ≡ map (term_value constructors.now) (map signs_of trees.now)) }
{
    let mut terms = Vec::with_capacity(alloc, trees.len())?;
    for tree in trees {
        terms.push(term(alloc, constructors, tree)?)?;
    }
    Ok(Terms::from_vec(terms))
}
