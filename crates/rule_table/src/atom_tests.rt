// Tests on terms and atoms.
ghost use Rattle.std.specs.Prelude.{◌≡◌};
ghost use Rattle.rule_table.specs.RuleLink.{mirror_pure};
ghost use Rattle.rule_table.specs.Tests.{same_term as term_same, same_pure as pure_same, same_spatial};
ghost use Rattle.rule_table.specs.Tests.{is_universal as universal, are_universal as universals};
ghost use Rattle.rule_table.specs.Tests.{is_universal_pure as universal_pure};
ghost use Rattle.rule_table.specs.Tests.{is_universal_spatial as universal_spatial, has_pure as list_has};
ghost use Rattle.rule_table.specs.Tests.{is_trivial as trivial, follows as list_follows, equated as terms_stand};

use heap_formula::{Pure, Spatial, Term, is_same_spatial};

/// Whether two terms are one as they stand.
pub fn same_term(t: Term, u: Term) -> bool
    ensures { result ≡ term_same t u }
{
    match (t, u) {
        (Term::Nil, Term::Nil) => true,
        (Term::Univ(m), Term::Univ(n)) => m == n,
        (Term::Exist(m), Term::Exist(n)) => m == n,
        _ => false,
    }
}

/// Whether two pure atoms are one as they stand.
pub fn same_pure(x: Pure, y: Pure) -> bool
    ensures { result ≡ pure_same x y }
{
    match (x, y) {
        (Pure::Eq(t, u), Pure::Eq(v, w)) => same_term(t, v) && same_term(u, w),
        (Pure::Neq(t, u), Pure::Neq(v, w)) => same_term(t, v) && same_term(u, w),
        _ => false,
    }
}

/// Whether two spatial atoms are one as they stand.
pub fn is_same_atom(x: &Spatial, y: &Spatial) -> bool
    ensures { result ≡ same_spatial x.now y.now }
{
    is_same_spatial(x, y)
}

/// Whether the term is no existential variable.
pub fn is_universal(term: Term) -> bool
    ensures { result ≡ universal term }
{
    match term {
        Term::Nil | Term::Univ(_) => true,
        Term::Exist(_) => false,
    }
}

fn are_universal(terms: &[Term]) -> bool
    ensures { result ≡ universals terms.now }
{
    for term in terms {
        if !is_universal(*term) {
            return false;
        }
    }
    true
}

/// Whether no existential variable stands in the atom.
pub fn is_universal_pure(atom: Pure) -> bool
    ensures { result ≡ universal_pure atom }
{
    match atom {
        Pure::Eq(t, u) | Pure::Neq(t, u) => is_universal(t) && is_universal(u),
    }
}

/// Whether no existential variable stands in the atom.
pub fn is_universal_spatial(atom: &Spatial) -> bool
    ensures { result ≡ universal_spatial atom.now }
{
    match atom {
        Spatial::Cell(t, args) => is_universal(*t) && are_universal(args.as_slice()),
        Spatial::Pred(_, args) => are_universal(args.as_slice()),
    }
}

fn mirrored(x: Pure) -> Pure
    ensures { result ≡ mirror_pure x }
{
    match x {
        Pure::Eq(t, u) => Pure::Eq(u, t),
        Pure::Neq(t, u) => Pure::Neq(u, t),
    }
}

/// Whether the list has the atom or its mirror image, which has the two terms in the other order.
pub fn has_pure(atoms: &[Pure], x: Pure) -> bool
    ensures { result ≡ list_has atoms.now x }
{
    for y in atoms {
        if same_pure(*y, x) || same_pure(*y, mirrored(x)) {
            return true;
        }
    }
    false
}

fn is_trivial(x: Pure) -> bool
    ensures { result ≡ trivial x }
{
    match x {
        Pure::Eq(t, u) => same_term(t, u),
        Pure::Neq(_, _) => false,
    }
}

/// Whether the atom is an equation of a term with itself, or the list has it or its mirror image.
pub fn follows(atoms: &[Pure], x: Pure) -> bool
    ensures { result ≡ list_follows atoms.now x }
{
    is_trivial(x) || has_pure(atoms, x)
}

/// Whether the two terms are one, or stand in one equation of the list.
pub fn equated(atoms: &[Pure], t: Term, u: Term) -> bool
    ensures { result ≡ terms_stand atoms.now t u }
{
    same_term(t, u) || has_pure(atoms, Pure::Eq(t, u))
}
