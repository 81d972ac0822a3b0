// Whether each variable of a formula is bound.
ghost use Rattle.std.specs.Prelude.{◌≡◌};
ghost use Rattle.std.specs.List.{list_all};
ghost use Rattle.script_formulas.specs.Formulas.{formula_of};
ghost use Rattle.script_formulas.specs.Scope.{bound_term, bound_pure, bound_atom, bound_formula};

use crate::{Pure, ScriptAtom, ScriptFormula, Term};

/// Quantifiers around a formula, at most.
pub const MOST_DEPTH: u16 = 1024;

fn is_bound_term(depth: u16, term: Term) -> bool
    ensures { result ≡ bound_term depth term }
{
    match term {
        Term::Nil | Term::Univ(_) => true,
        Term::Exist(n) => n < depth,
    }
}

fn is_bound_pure(depth: u16, atom: Pure) -> bool
    ensures { result ≡ bound_pure depth atom }
{
    match atom {
        Pure::Eq(t, u) | Pure::Neq(t, u) => is_bound_term(depth, t) && is_bound_term(depth, u),
    }
}

fn are_bound(depth: u16, terms: &[Term]) -> bool
    ensures { result ≡ list_all (bound_term depth) terms.now }
{
    terms.iter().all(|term| is_bound_term(depth, *term))
}

fn is_bound_atom(depth: u16, atom: &ScriptAtom) -> bool
    ensures { result ≡ bound_atom depth atom.now }
{
    match atom {
        ScriptAtom::Cell(t, _, args) => {
            is_bound_term(depth, *t) && are_bound(depth, args.as_slice())
        }
        ScriptAtom::Call(_, args) => are_bound(depth, args.as_slice()),
    }
}

/// Whether each quantified variable of a formula that stands below so many quantifiers is bound by one of them, or
/// within the formula, and no quantifier has more than 1,024 around it.
pub fn is_bound(depth: u16, formula: &ScriptFormula) -> bool
    ensures { result ≡ bound_formula depth (formula_of formula.now) }
{
    match formula {
        ScriptFormula::True | ScriptFormula::False | ScriptFormula::Empty => true,
        ScriptFormula::Pure(atom) => is_bound_pure(depth, *atom),
        ScriptFormula::Atom(atom) => is_bound_atom(depth, atom),
        ScriptFormula::Not(f) => is_bound(depth, f),
        ScriptFormula::And(f, g) | ScriptFormula::Or(f, g) | ScriptFormula::Sep(f, g) => {
            is_bound(depth, f) && is_bound(depth, g)
        }
        ScriptFormula::Exists(_, f) => depth < MOST_DEPTH && is_bound(depth + 1, f),
    }
}
