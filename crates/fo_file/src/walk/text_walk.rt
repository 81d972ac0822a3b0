//! A walk over proof files and problem files of first-order logic, up to the first flaw.

ghost use Rattle.std.specs.Prelude.{◌≡◌, ◌+◌, ◌<◌, ◌^◌, ℕ, map, IfOk};
ghost use Rattle.heap_formula.specs.Words.{Each};
ghost use Rattle.heap_reader.specs.Flaws.{Found};
ghost use Rattle.fo_syntax.specs.ProblemTrees.{constructor_of, definition_of, problem_of};
ghost use Rattle.fo_syntax.specs.ProblemGrammar.{problem};
ghost use Rattle.fo_syntax.specs.ProofTrees.{file_of};
ghost use Rattle.fo_syntax.specs.ProofGrammar.{file};
ghost use Rattle.fo_file.specs.Parts.{IsDefinition};
ghost use Rattle.fo_file.specs.Spans.{behind_theory, file_end, problem_end};
ghost use Rattle.fo_file.specs.Flaws.{constructor_heads, predicate_heads, theory_flaw, file_flaw as first_of_file};
ghost use Rattle.fo_file.specs.Flaws.{problem_flaw as first_of_problem};
ghost use Rattle.fo_file.specs.Answers.{IsPassed};

use crate::walk::flaw::Stop;
use crate::walk::known::Names;
use crate::walk::node_walk::{walk_nodes, walk_sequent};
use crate::walk::theory_walk::{walk_constructors, walk_definitions};
use cyc_basics::memory::OutOfMemory;
use fo_syntax::problems::{ConstructorTree, DefinitionTree, ProblemTree};
use fo_syntax::proofs::FileTree;
use heap_reader::Flaw;
use std::alloc::Global;

/// The constructors and definitions of a text, and the token after them.
fn walk_theory(
    alloc: Global,
    names: &Names<'_>,
    constructors: &[ConstructorTree<'_>],
    definitions: &[DefinitionTree<'_>],
) -> Result<usize, Stop>
    requires constructors { names.now.constructors ≡ constructor_heads (map constructor_of constructors.now) }
    requires predicates { names.now.predicates ≡ predicate_heads (map definition_of definitions.now) }
    requires are { Each IsDefinition (map definition_of definitions.now) }
    requires fits { behind_theory (map constructor_of constructors.now) (map definition_of definitions.now) < 2 ^ 64 }
    ensures { IsPassed result (theory_flaw (map constructor_of constructors.now) (map definition_of definitions.now))
        (behind_theory (map constructor_of constructors.now) (map definition_of definitions.now)) }
{
    let behind = walk_constructors(&names.constructors, 4, constructors)?;
    walk_definitions(alloc, names, behind, definitions)
}

fn walk_file(alloc: Global, names: &Names<'_>, tree: &FileTree<'_>) -> Result<usize, Stop>
    requires constructors { names.now.constructors ≡ constructor_heads (file_of tree.now).constructors }
    requires predicates { names.now.predicates ≡ predicate_heads (file_of tree.now).definitions }
    requires grammar { file.fits (file_of tree.now) }
    requires fits { file_end (file_of tree.now) < 2 ^ 64 }
    ensures { IsPassed result (first_of_file (file_of tree.now)) (file_end (file_of tree.now)) }
{
    let behind = walk_theory(alloc, names, &tree.constructors, &tree.definitions)?;
    walk_nodes(alloc, names, behind, &tree.nodes)
}

fn walk_problem(alloc: Global, names: &Names<'_>, tree: &ProblemTree<'_>) -> Result<usize, Stop>
    requires constructors { names.now.constructors ≡ constructor_heads (problem_of tree.now).constructors }
    requires predicates { names.now.predicates ≡ predicate_heads (problem_of tree.now).definitions }
    requires grammar { problem.fits (problem_of tree.now) }
    requires fits { problem_end (problem_of tree.now) < 2 ^ 64 }
    ensures { IsPassed result (first_of_problem (problem_of tree.now)) (problem_end (problem_of tree.now)) }
{
    let behind = walk_theory(alloc, names, &tree.constructors, &tree.definitions)?;
    let reached = walk_sequent(alloc, names, behind + 1, &tree.goal)?;
    Ok(reached.token)
}

/// The flaw that a walk met, or none.
fn flaw_met(walked: Result<usize, Stop>) -> Result<Option<Flaw>, OutOfMemory>
    ensures { (found : Found) (behind : ℕ) → IsPassed walked found behind → IfOk result (λ f. f ≡ found) }
{
    match walked {
        Ok(_) => Ok(None),
        Err(Stop::Flaw(flaw)) => Ok(Some(flaw)),
        Err(Stop::OutOfMemory) => Err(OutOfMemory),
    }
}

/// The first flaw of a proof file, by its token; the names are those of its constructors and definitions.
pub fn file_flaw(
    alloc: Global,
    names: &Names<'_>,
    tree: &FileTree<'_>,
) -> Result<Option<Flaw>, OutOfMemory>
    requires constructors { names.now.constructors ≡ constructor_heads (file_of tree.now).constructors }
    requires predicates { names.now.predicates ≡ predicate_heads (file_of tree.now).definitions }
    requires grammar { file.fits (file_of tree.now) }
    requires fits { file_end (file_of tree.now) < 2 ^ 64 }
    ensures { IfOk result (λ f. f ≡ first_of_file (file_of tree.now)) }
{
    flaw_met(walk_file(alloc, names, tree))
}

/// The first flaw of a problem file, by its token; the names are those of its constructors and definitions.
pub fn problem_flaw(
    alloc: Global,
    names: &Names<'_>,
    tree: &ProblemTree<'_>,
) -> Result<Option<Flaw>, OutOfMemory>
    requires constructors { names.now.constructors ≡ constructor_heads (problem_of tree.now).constructors }
    requires predicates { names.now.predicates ≡ predicate_heads (problem_of tree.now).definitions }
    requires grammar { problem.fits (problem_of tree.now) }
    requires fits { problem_end (problem_of tree.now) < 2 ^ 64 }
    ensures { IfOk result (λ f. f ≡ first_of_problem (problem_of tree.now)) }
{
    flaw_met(walk_problem(alloc, names, tree))
}
