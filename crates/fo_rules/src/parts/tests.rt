// Tests on terms and atoms.
ghost use Rattle.std.specs.Prelude.{◌≡◌, MatchOption, None, Some, slice_get};
ghost use Rattle.fo_formula.specs.Tests.{same_word, same_atom, same_sequent, only_variable as variable_alone};
ghost use Rattle.fo_formula.specs.Tests.{has_variable as has_the_variable, is_inside as inside};
ghost use Rattle.fo_formula.specs.Tests.{are_different as differ, begin_differently as begin_apart};
ghost use Rattle.fo_formula.specs.Tests.{is_absurd as absurd_sides, are_one_constructor as one_constructor};
ghost use Rattle.fo_formula.specs.Tests.{have_one_constructor as begin_alike};

use fo_formula::{FoAtom, FoSequent, Sign, Term, is_same_atom, is_same_sequent};

/// The atom at a position, if there is one.
pub fn atom_at(atoms: &[FoAtom], i: u32) -> Option<&FoAtom>
    ensures { MatchOption result (slice_get atoms.now i ≡ None) (λ x. slice_get atoms.now i ≡ Some x.now) }
{
    atoms.get(i as usize)
}

/// Whether two atoms are one as they stand.
pub fn is_one_atom(a: &FoAtom, b: &FoAtom) -> bool
    ensures { result ≡ same_atom a.now b.now }
{
    is_same_atom(a, b)
}

/// Whether two terms are one as they stand.
pub fn is_one_term(a: &Term, b: &Term) -> bool
    ensures { result ≡ same_word a.now b.now }
{
    *a == *b
}

/// The number of the variable that the word is, if it is one.
pub fn only_variable(word: &[Sign]) -> Option<u16>
    ensures { result ≡ variable_alone word.now }
{
    let [Sign::Universal(n)] = word else {
        return None;
    };
    Some(*n)
}

/// Whether the word has the variable.
pub fn has_variable(n: u16, word: &[Sign]) -> bool
    ensures { result ≡ has_the_variable n word.now }
{
    for sign in word {
        if let Sign::Universal(m) = sign {
            if n == *m {
                return true;
            }
        }
    }
    false
}

fn is_inside(a: &[Sign], b: &[Sign]) -> bool
    ensures { result ≡ inside a.now b.now }
{
    match only_variable(a) {
        None => false,
        Some(n) => has_variable(n, b) && 1 < b.len(),
    }
}

fn are_different(a: Sign, b: Sign) -> bool
    ensures { result ≡ differ a b }
{
    match a {
        Sign::Universal(_) | Sign::Local(_) => false,
        Sign::Constructor { number, arguments } => match b {
            Sign::Universal(_) | Sign::Local(_) => false,
            Sign::Constructor {
                number: other,
                arguments: count,
            } => !(number == other && arguments == count),
        },
    }
}

fn begin_differently(a: &[Sign], b: &[Sign]) -> bool
    ensures { result ≡ begin_apart a.now b.now }
{
    let [first, ..] = a else {
        return false;
    };
    let [other, ..] = b else {
        return false;
    };
    are_different(*first, *other)
}

/// Whether no closed terms for the variables make the two sides one: they begin with different constructors, or one is
/// a variable properly inside the other (Robinson 1965).
pub fn is_absurd(a: &[Sign], b: &[Sign]) -> bool
    ensures { result ≡ absurd_sides a.now b.now }
{
    begin_differently(a, b) || (is_inside(a, b) || is_inside(b, a))
}

fn are_one_constructor(a: Sign, b: Sign) -> bool
    ensures { result ≡ one_constructor a b }
{
    match a {
        Sign::Universal(_) | Sign::Local(_) => false,
        Sign::Constructor { number, arguments } => match b {
            Sign::Universal(_) | Sign::Local(_) => false,
            Sign::Constructor {
                number: other,
                arguments: count,
            } => number == other && arguments == count,
        },
    }
}

/// Whether the two sides begin with one constructor.
pub fn have_one_constructor(a: &[Sign], b: &[Sign]) -> bool
    ensures { result ≡ begin_alike a.now b.now }
{
    let [first, ..] = a else {
        return false;
    };
    let [other, ..] = b else {
        return false;
    };
    are_one_constructor(*first, *other)
}

/// Whether two sequents are one as they stand.
pub fn is_one_sequent(a: &FoSequent, b: &FoSequent) -> bool
    ensures { result ≡ same_sequent a.now b.now }
{
    is_same_sequent(a, b)
}
