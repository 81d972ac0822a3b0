// The variables of a sequent.
ghost use Rattle.std.specs.Prelude.{◌≡◌, IfOk};
ghost use Rattle.std.specs.List.{list_any};
ghost use Rattle.fo_formula.specs.Tests.{has_variable as word_has};
ghost use Rattle.fo_search.specs.Links.{stands_in_atom as atom_has, stands_in as sequent_has};
ghost use Rattle.fo_search.specs.Links.{variables as variables_of};

use cyc_basics::memory::OutOfMemory;
use fo_formula::{FoAtom, FoSequent, Term, bound_of_sequent};
use fo_rules::parts::has_variable;
use std::alloc::Global;

fn stands_in_terms(n: u16, terms: &[Term]) -> bool
    ensures { result ≡ list_any (word_has n) terms.now }
{
    for term in terms {
        if has_variable(n, term.as_slice()) {
            return true;
        }
    }
    false
}

fn stands_in_atom(n: u16, atom: &FoAtom) -> bool
    ensures { result ≡ atom_has n atom.now }
{
    match atom {
        FoAtom::Equation { left, right } => {
            has_variable(n, left.as_slice()) || has_variable(n, right.as_slice())
        }
        FoAtom::Predicate { arguments, .. } => stands_in_terms(n, arguments.as_slice()),
    }
}

fn stands_in_atoms(n: u16, atoms: &[FoAtom]) -> bool
    ensures { result ≡ list_any (atom_has n) atoms.now }
{
    for atom in atoms {
        if stands_in_atom(n, atom) {
            return true;
        }
    }
    false
}

fn stands_in(n: u16, sequent: &FoSequent) -> bool
    ensures { result ≡ sequent_has n sequent.now }
{
    stands_in_atoms(n, sequent.left.as_slice()) || stands_in_atoms(n, sequent.right.as_slice())
}

/// The numbers of the sequent's variables, ascending.
pub fn variables(alloc: Global, sequent: &FoSequent) -> Result<Vec<u16>, OutOfMemory>
    ensures { IfOk result (λ v. v.items ≡ variables_of sequent.now) }
{
    let mut all = Vec::new(alloc);
    let bound = bound_of_sequent(sequent);
    for n in 0..bound {
        if stands_in(n as u16, sequent) {
            all.push(n as u16)?;
        }
    }
    Ok(all)
}
