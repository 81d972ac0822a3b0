//! Reading a problem: its tokens, its tree, the first flaw of the tree, and its value.

ghost use Rattle.std.specs.Prelude.{◌≡◌, ◌-◌, ◌<◌, ◌^◌, ℕ, List, Ok, None, length, map, IfOk};
ghost use Rattle.cyc_lex.specs.Word.{EndsOnce, word_of};
ghost use Rattle.fo_syntax.specs.ProblemGrammar.{problem};
ghost use Rattle.fo_syntax.specs.ProblemTrees.{problem_of};
ghost use Rattle.fo_file.specs.Flaws.{constructor_heads, predicate_heads, problem_flaw as first_flaw};
ghost use Rattle.fo_file.specs.declared.values.problem.FoProblem.{FoProblem as Question};
ghost use Rattle.fo_file.specs.Questions.{IsFoQuestion};
ghost use Rattle.fo_file.specs.Reading.{IsProblemOf, IsReadProblem, IsWritableProblem, ReadsProblemFrom, ReadsProblem};

use crate::values::{FoProblem, problem_value};
use crate::walk::{Names, problem_flaw};
use cyc_basics::memory::OutOfMemory;
use cyc_lex::{ReadFault, Tokens, tokens};
use fo_syntax::problems::{ProblemTree, read_problem_tree};
use heap_reader::flaw_fault;
use std::alloc::Global;

/// The problem that a tree without a flaw says.
fn problem_of_tree(
    alloc: Global,
    names: &Names<'_>,
    tree: &ProblemTree<'_>,
) -> Result<FoProblem, OutOfMemory>
    requires constructors { names.now.constructors ≡ constructor_heads (problem_of tree.now).constructors }
    requires predicates { names.now.predicates ≡ predicate_heads (problem_of tree.now).definitions }
    requires fits { problem.fits (problem_of tree.now) }
    requires right { first_flaw (problem_of tree.now) ≡ None }
    ensures says { IfOk result (IsProblemOf (problem_of tree.now)) }
    ensures question { IfOk result IsFoQuestion }
    ensures writable { IfOk result IsWritableProblem }
{
    problem_value(alloc, &names.constructors, &names.predicates, tree)
}

fn read_tokens(alloc: Global, tokens: &Tokens<'_>) -> Result<FoProblem, ReadFault>
    requires few { length tokens.now < 2 ^ 32 }
    requires words { EndsOnce (map word_of tokens.now) }
    ensures reads { ReadsProblemFrom tokens.now result }
    ensures question { IfOk result IsFoQuestion }
    ensures writable { IfOk result IsWritableProblem }
{
    let tree = read_problem_tree(alloc, tokens)?;
    let names = Names::new(alloc, &tree.constructors, &tree.definitions)?;
    if let Some(flaw) = problem_flaw(alloc, &names, &tree)? {
        return Err(flaw_fault(tokens, flaw));
    }
    Ok(problem_of_tree(alloc, &names, &tree)?)
}

/// The problem that the bytes spell, or the first fault of the text: of its tokens, then of its grammar, then of what
/// it says, each at the first place where it stands.
pub fn read_fo_problem(alloc: Global, bytes: &[u8]) -> Result<FoProblem, ReadFault>
    requires { length bytes.now < 2 ^ 32 - 1 }
    ensures reads { ReadsProblem bytes.now result }
    ensures question { IfOk result IsFoQuestion }
    ensures writable { IfOk result IsWritableProblem }
{
    let tokens = tokens(alloc, bytes)?;
    read_tokens(alloc, &tokens)
}

/// Bytes spell at most one problem. The function does nothing.
pub fn bytes_spell_one_problem()
    ensures { (bytes : List ℕ) (p q : Question) → IsReadProblem bytes (Ok p) → IsReadProblem bytes (Ok q) → p ≡ q }
{}
