// Terms of a state for the variables of a case.
ghost use Rattle.std.specs.Prelude.{◌≡◌, IfOk, Some};
ghost use Rattle.heap_formula.specs.Substitution.{in_pure};
ghost use Rattle.search_moves.specs.Bound.{IsBound};
ghost use Rattle.search_moves.specs.Folds.{bound_in as bound_in_binding, bind_variable as variable_bound};
ghost use Rattle.search_moves.specs.Folds.{bind as term_bound, bind_lists as lists_bound, bind_atom as atom_bound};
ghost use Rattle.search_moves.specs.Folds.{bound_term as term_under};

use cyc_basics::memory::OutOfMemory;
use heap_formula::{Pure, Spatial, Term};
use rule_table::same_term;

/// The term that a variable is bound to.
fn bound_in(binding: &[(Term, Term)], variable: Term) -> Option<Term>
    ensures { result ≡ bound_in_binding binding.now variable }
{
    for (from, to) in binding {
        if same_term(*from, variable) {
            return Some(*to);
        }
    }
    None
}

fn bind_variable(
    binding: &mut Vec<(Term, Term)>,
    variable: Term,
    term: Term,
) -> Result<bool, OutOfMemory>
    ensures { IfOk result (IsBound (variable_bound binding.old.items variable term
        (bound_in_binding binding.old.items variable)) binding.new.items) }
{
    match bound_in(binding, variable) {
        Some(bound) => Ok(same_term(bound, term)),
        None => {
            binding.push((variable, term))?;
            Ok(true)
        }
    }
}

/// Binds a case's term to a term, if it can be.
fn bind(binding: &mut Vec<(Term, Term)>, from: Term, to: Term) -> Result<bool, OutOfMemory>
    ensures { IfOk result (IsBound (term_bound binding.old.items from to) binding.new.items) }
{
    match from {
        Term::Nil => Ok(same_term(Term::Nil, to)),
        Term::Univ(_) => bind_variable(binding, from, to),
        Term::Exist(_) => bind_variable(binding, from, to),
    }
}

fn bind_lists(
    binding: &mut Vec<(Term, Term)>,
    from: &[Term],
    to: &[Term],
) -> Result<bool, OutOfMemory>
    ensures { IfOk result (IsBound (lists_bound (Some binding.old.items) from.now to.now) binding.new.items) }
{
    if from.len() != to.len() {
        return Ok(false);
    }
    for (k, term) in from.iter().enumerate() {
        if !bind(binding, *term, to[k])? {
            return Ok(false);
        }
    }
    Ok(true)
}

/// Binds a case's atom to an atom, if it can be.
pub fn bind_atom(
    binding: &mut Vec<(Term, Term)>,
    from: &Spatial,
    to: &Spatial,
) -> Result<bool, OutOfMemory>
    ensures { IfOk result (IsBound (atom_bound binding.old.items from.now to.now) binding.new.items) }
{
    match (from, to) {
        (Spatial::Cell(t, ts), Spatial::Cell(u, us)) => {
            if !bind(binding, *t, *u)? {
                return Ok(false);
            }
            bind_lists(binding, ts.as_slice(), us.as_slice())
        }
        (Spatial::Pred(p, ts), Spatial::Pred(q, us)) => {
            if *p != *q {
                return Ok(false);
            }
            bind_lists(binding, ts.as_slice(), us.as_slice())
        }
        _ => Ok(false),
    }
}

/// What a case's term is under a binding.
pub fn bound_term(binding: &[(Term, Term)], term: Term) -> Term
    ensures { result ≡ term_under binding.now term }
{
    match term {
        Term::Nil => Term::Nil,
        Term::Univ(_) => bound_in(binding, term).unwrap_or(term),
        Term::Exist(_) => bound_in(binding, term).unwrap_or(term),
    }
}

/// What a case's pure atom is under a binding.
pub fn bound_pure(binding: &[(Term, Term)], atom: Pure) -> Pure
    ensures { result ≡ in_pure (term_under binding.now) atom }
{
    match atom {
        Pure::Eq(t, u) => Pure::Eq(bound_term(binding, t), bound_term(binding, u)),
        Pure::Neq(t, u) => Pure::Neq(bound_term(binding, t), bound_term(binding, u)),
    }
}
