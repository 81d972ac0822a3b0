// Equations between terms with one constructor come apart.
ghost use Rattle.std.specs.Prelude.{◌≡◌, ◌<◌, ◌≤◌, ◌++◌, length, IfOk, OnOk};
ghost use Rattle.fo_formula.specs.Words.{arity as arity_of_sign, end_of, first_term, after_first};
ghost use Rattle.fo_formula.specs.Answered.{IsAnswer};
ghost use Rattle.fo_formula.specs.Table.{equations as equations_of, argument_equations as arguments_of, decomposed};
ghost use Rattle.fo_formula.specs.Table.{decompose_answer};

use crate::parts::{
    atom_at, atoms_without, have_one_constructor, limited, one_premise, pairs_of_kept,
    sequent_with_left,
};
use cyc_basics::limits::MOST_LEFT;
use cyc_basics::memory::OutOfMemory;
use fo_formula::table::{FoFault, FoPremise, FoRuleError};
use fo_formula::{FoAtom, FoAtoms, FoSequent, Sign, Term};
use std::alloc::Global;

fn arity(sign: Sign) -> u8
    ensures { result ≡ arity_of_sign sign }
{
    match sign {
        Sign::Universal(_) | Sign::Local(_) => 0,
        Sign::Constructor { arguments, .. } => arguments,
    }
}

/// How many signs the first term of a word has.
fn end_of_first(word: &[Sign]) -> usize
    ensures value { result ≡ end_of 1 word.now }
    ensures within { result ≤ length word.now }
{
    let mut need: u128 = 1;
    for (i, sign) in word.iter().enumerate() {
        if need == 0 {
            return i;
        }
        need = need - 1 + arity(*sign) as u128;
    }
    word.len()
}

/// The signs of the first term of a word.
pub fn first_of(word: &[Sign]) -> &[Sign]
    ensures { result.now ≡ first_term word.now }
{
    &word[..end_of_first(word)]
}

fn rest_of(word: &[Sign]) -> &[Sign]
    ensures { result.now ≡ after_first word.now }
{
    &word[end_of_first(word)..]
}

fn equation_of(alloc: Global, left: &[Sign], right: &[Sign]) -> Result<FoAtom, OutOfMemory>
    ensures { IfOk result (λ x. x ≡ FoAtom.Equation left.now right.now) }
{
    let left = Term::from_vec(Vec::from_slice(alloc, left)?);
    let right = Term::from_vec(Vec::from_slice(alloc, right)?);
    Ok(FoAtom::Equation { left, right })
}

/// Adds the equations between the first terms of two words, in order.
fn push_equations(
    alloc: Global,
    count: u8,
    a: &[Sign],
    b: &[Sign],
    all: &mut Vec<FoAtom>,
) -> Result<(), OutOfMemory>
    ensures { OnOk result (all.new.items ≡ all.old.items ++ equations_of count a.now b.now) }
{
    let mut first = a;
    let mut second = b;
    let mut remaining = count;
    while remaining > 0 {
        let equation = equation_of(alloc, first_of(first), first_of(second))?;
        all.push(equation)?;
        first = rest_of(first);
        second = rest_of(second);
        remaining -= 1;
    }
    Ok(())
}

fn push_argument_equations(
    alloc: Global,
    a: &[Sign],
    b: &[Sign],
    all: &mut Vec<FoAtom>,
) -> Result<(), OutOfMemory>
    ensures { OnOk result (all.new.items ≡ all.old.items ++ arguments_of a.now b.now) }
{
    let [Sign::Constructor { arguments, .. }, first @ ..] = a else {
        return Ok(());
    };
    let [_, second @ ..] = b else {
        return Ok(());
    };
    push_equations(alloc, *arguments, first, second, all)
}

fn split(
    alloc: Global,
    sequent: &FoSequent,
    i: usize,
    a: &[Sign],
    b: &[Sign],
) -> Result<FoPremise, OutOfMemory>
    requires i_in { i < length sequent.now.left }
    requires few { length sequent.now.left ≤ MOST_LEFT }
    ensures { IfOk result (λ p. p ≡ decomposed sequent.now i a.now b.now) }
{
    let mut left = atoms_without(&sequent.left, i)?;
    let pairs = pairs_of_kept(alloc, &left, i)?;
    push_argument_equations(alloc, a, b, &mut left)?;
    let sequent = sequent_with_left(sequent, FoAtoms::from_vec(left))?;
    Ok(FoPremise { sequent, pairs })
}

/// The equations between the arguments in place of left atom `i`, whose sides have one constructor.
pub fn premises_decompose(
    alloc: Global,
    sequent: &FoSequent,
    i: u32,
) -> Result<Vec<FoPremise>, FoRuleError>
    requires { length sequent.now.left ≤ MOST_LEFT }
    ensures { IsAnswer result (decompose_answer sequent.now i) }
{
    let Some(x) = atom_at(sequent.left.as_slice(), i) else {
        return Err(FoRuleError::Fault(FoFault::NoSuchAtom));
    };
    let FoAtom::Equation { left, right } = x else {
        return Err(FoRuleError::Fault(FoFault::NotEquation));
    };
    if !have_one_constructor(left.as_slice(), right.as_slice()) {
        return Err(FoRuleError::Fault(FoFault::AtomsDiffer));
    }
    let premise = split(
        alloc,
        sequent,
        i as usize,
        left.as_slice(),
        right.as_slice(),
    )?;
    limited(sequent, 0, one_premise(alloc, premise)?)
}
