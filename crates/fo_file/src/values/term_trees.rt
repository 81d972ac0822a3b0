//! Terms as trees, with the names of constructors borrowed from the theory.

ghost use Rattle.std.specs.Prelude.{◌≡◌, ◌++◌, map, IfOk, OnOk};
ghost use Rattle.fo_syntax.specs.Trees.{sign_of};
ghost use Rattle.fo_syntax.specs.ProofTrees.{signs_of};
ghost use Rattle.fo_file.specs.Written.{constructor_name as name_of_constructor, sign_tree, term_tree};

use cyc_basics::memory::OutOfMemory;
use fo_formula::{FoTheory, Sign, Term};
use fo_syntax::terms::SignTree;
use std::alloc::Global;

/// The name of the constructor with this number, empty where there is none.
fn constructor_name(theory: &FoTheory, number: u16) -> &str
    ensures { result.now ≡ name_of_constructor theory.now number }
{
    match theory.constructors.as_slice().get(number as usize) {
        Some(constructor) => constructor.name.as_text(),
        None => "",
    }
}

fn sign<'a>(theory: &'a FoTheory, value: Sign) -> SignTree<'a>
    ensures { sign_of result ≡ sign_tree theory.now value }
{
    match value {
        Sign::Universal(number) => SignTree::Variable(u32::from(number)),
        Sign::Local(number) => SignTree::Local(u32::from(number)),
        Sign::Constructor { number, arguments } => SignTree::Apply(
            constructor_name(theory, number),
            usize::from(arguments),
        ),
    }
}

/// Adds the signs of a term.
pub fn push_signs<'a>(
    theory: &'a FoTheory,
    values: &[Sign],
    signs: &mut Vec<SignTree<'a>>,
) -> Result<(), OutOfMemory>
    ensures { OnOk result (map sign_of signs.new.items
        ≡ map sign_of signs.old.items ++ term_tree theory.now values.now) }
{
    for value in values {
        signs.push(sign(theory, *value))?;
    }
    Ok(())
}

/// The tree of a term.
pub fn term<'a>(
    alloc: Global,
    theory: &'a FoTheory,
    value: &Term,
) -> Result<Vec<SignTree<'a>>, OutOfMemory>
    ensures { IfOk result (λ v. signs_of v ≡ term_tree theory.now value.now) }
{
    let mut signs = Vec::with_capacity(alloc, value.as_slice().len())?;
    push_signs(theory, value.as_slice(), &mut signs)?;
    Ok(signs)
}

/// The trees of terms, in order.
pub fn terms<'a>(
    alloc: Global,
    theory: &'a FoTheory,
    values: &[Term],
) -> Result<Vec<Vec<SignTree<'a>>>, OutOfMemory>
    ensures { IfOk result (λ v. map signs_of v.items ≡ map (term_tree theory.now) values.now) }
{
    let mut trees = Vec::with_capacity(alloc, values.len())?;
    for value in values {
        trees.push(term(alloc, theory, value)?)?;
    }
    Ok(trees)
}
