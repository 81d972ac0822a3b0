//! Whole files as trees, with names borrowed from the theory.

ghost use Rattle.std.specs.Prelude.{◌≡◌, IfOk};
ghost use Rattle.fo_syntax.specs.ProblemTrees.{problem_of};
ghost use Rattle.fo_syntax.specs.ProofTrees.{file_of};
ghost use Rattle.fo_file.specs.Written.{file_tree as tree_of_file, problem_tree as tree_of_problem};

use crate::values::atom_trees::sequent;
use crate::values::node_trees::nodes;
use crate::values::problem::FoProblem;
use crate::values::theory_trees::{constructors, definitions};
use cyc_basics::memory::OutOfMemory;
use fo_formula::FoFile;
use fo_syntax::problems::ProblemTree;
use fo_syntax::proofs::FileTree;
use std::alloc::Global;

/// The tree of a proof.
pub fn file_tree<'a>(alloc: Global, file: &'a FoFile) -> Result<FileTree<'a>, OutOfMemory>
    ensures { IfOk result (λ t. file_of t ≡ tree_of_file file.now) }
{
    let constructors = constructors(alloc, &file.theory)?;
    let definitions = definitions(alloc, &file.theory)?;
    let nodes = nodes(alloc, &file.theory, file.nodes.as_slice())?;
    Ok(FileTree {
        constructors,
        definitions,
        nodes,
    })
}

/// The tree of a problem.
pub fn problem_tree<'a>(
    alloc: Global,
    problem: &'a FoProblem,
) -> Result<ProblemTree<'a>, OutOfMemory>
    ensures { IfOk result (λ t. problem_of t ≡ tree_of_problem problem.now) }
{
    let constructors = constructors(alloc, &problem.theory)?;
    let definitions = definitions(alloc, &problem.theory)?;
    let goal = sequent(alloc, &problem.theory, &problem.goal)?;
    Ok(ProblemTree {
        constructors,
        definitions,
        goal,
    })
}
