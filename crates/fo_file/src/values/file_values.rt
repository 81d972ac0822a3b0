//! Whole files that trees say.

ghost use Rattle.std.specs.Prelude.{◌≡◌, ◌<◌, length, IfOk};
ghost use Rattle.fo_syntax.specs.ProblemTrees.{problem_of};
ghost use Rattle.fo_syntax.specs.ProofTrees.{file_of};
ghost use Rattle.fo_file.specs.Known.{IsKnownFile, IsKnownProblem};
ghost use Rattle.fo_file.specs.Values.{file_value as value_of_file, problem_value as value_of_problem};

use crate::values::atom_values::sequent;
use crate::values::node_values::nodes;
use crate::values::problem::FoProblem;
use crate::values::theory_values::theory;
use cyc_basics::memory::OutOfMemory;
use fo_formula::FoFile;
use fo_syntax::problems::ProblemTree;
use fo_syntax::proofs::FileTree;
use heap_reader::Heads;
use std::alloc::Global;

/// The proof that a tree says, whose names are those of the heads.
pub fn file_value(
    alloc: Global,
    constructors: &Heads<'_>,
    predicates: &Heads<'_>,
    tree: &FileTree<'_>,
) -> Result<FoFile, OutOfMemory>
    requires known { IsKnownFile constructors.now predicates.now (file_of tree.now) }
    requires few { length constructors.now < 65536 }
    requires few_predicates { length predicates.now < 65536 }
    ensures { IfOk result (λ f. f ≡ value_of_file constructors.now predicates.now (file_of tree.now)) }
{
    let theory = theory(
        alloc,
        constructors,
        predicates,
        &tree.constructors,
        &tree.definitions,
    )?;
    let nodes = nodes(alloc, constructors, predicates, &tree.nodes)?;
    Ok(FoFile { theory, nodes })
}

/// The problem that a tree says, whose names are those of the heads.
pub fn problem_value(
    alloc: Global,
    constructors: &Heads<'_>,
    predicates: &Heads<'_>,
    tree: &ProblemTree<'_>,
) -> Result<FoProblem, OutOfMemory>
    requires known { IsKnownProblem constructors.now predicates.now (problem_of tree.now) }
    requires few { length constructors.now < 65536 }
    requires few_predicates { length predicates.now < 65536 }
    ensures { IfOk result (λ p. p ≡ value_of_problem constructors.now predicates.now (problem_of tree.now)) }
{
    let theory = theory(
        alloc,
        constructors,
        predicates,
        &tree.constructors,
        &tree.definitions,
    )?;
    let goal = sequent(alloc, constructors, predicates, &tree.goal)?;
    Ok(FoProblem { theory, goal })
}
