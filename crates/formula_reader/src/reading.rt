//! Reading a problem file: its tokens, its tree, the tree with numbers, the first flaw, and its value.

ghost use Rattle.std.specs.Prelude.{◌≡◌, ℕ, List, Result, Ok, ◌-◌, ◌<◌, ◌^◌, None, length, map, IfOk};
ghost use Rattle.cyc_lex.specs.Word.{EndsOnce, word_of};
ghost use Rattle.cyc_lex.specs.declared.fault.ReadFault.{ReadFault as ReadFaultValue};
ghost use Rattle.problem_syntax.specs.Trees.{problem_of as named_problem_of};
ghost use Rattle.problem_syntax.specs.Numbered.{problem_of};
ghost use Rattle.problem_syntax.specs.Numbering.{numbered};
ghost use Rattle.formula_reader.specs.declared.problem.Problem.{Problem as ProblemValue};
ghost use Rattle.formula_reader.specs.Spans.{problem_span};
ghost use Rattle.formula_reader.specs.Flaws.{headings, problem_flaw as first_flaw};
ghost use Rattle.formula_reader.specs.Problems.{IsOfText};
ghost use Rattle.formula_reader.specs.Reading.{SpellsTree, IsProblemOf, IsRead, ReadsFrom, Reads, IsReadAgain};

use crate::goals::problem_flaw;
use crate::heads::heads;
use crate::problem::Problem;
use crate::terms::{Scope, Variables};
use crate::values::{definitions, goal};
use cyc_basics::memory::OutOfMemory;
use cyc_lex::{ReadFault, Tokens, tokens};
use heap_reader::ends::program;
use heap_reader::{Heads, flaw_fault};
use pred_defs::Defs;
use problem_syntax::numbering::{NumberedProblem, number_problem};
use problem_syntax::{ProblemTree, read_problem_tree};
use std::alloc::Global;

/// The problem that a numbered tree without a flaw says.
fn problem_of_tree(
    alloc: Global,
    heads: &Heads<'_>,
    tree: &NumberedProblem<'_>,
) -> Result<Problem, OutOfMemory>
    requires known { heads.now ≡ headings (problem_of tree.now).definitions }
    requires text { IsOfText (problem_of tree.now) }
    requires right { first_flaw (problem_of tree.now) ≡ None }
    ensures { IfOk result (IsProblemOf (problem_of tree.now)) }
{
    let definitions = definitions(alloc, heads, &tree.definitions)?;
    let program = program(
        alloc,
        heads,
        &Variables,
        &Scope::End,
        &tree.lines,
        &tree.ends,
    )?;
    let goal = goal(alloc, heads, &tree.goal)?;
    Ok(Problem {
        version: tree.version,
        defs: Defs::from_vec(alloc, tree.version.limits(), definitions),
        program,
        goal,
    })
}

/// The tree with numbers in place of its names, and the heads of its definitions.
fn numbers<'a>(
    alloc: Global,
    tree: &ProblemTree<'a>,
) -> Result<(Heads<'a>, NumberedProblem<'a>), OutOfMemory>
    requires { problem_span (numbered (named_problem_of tree.now)) < 2 ^ 32 }
    ensures known { IfOk result (λ r. r.0 ≡ headings (problem_of r.1).definitions) }
    ensures numbers { IfOk result (λ r. problem_of r.1 ≡ numbered (named_problem_of tree.now)) }
{
    let tree = number_problem(alloc, tree)?;
    let heads = heads(alloc, &tree.definitions)?;
    Ok((heads, tree))
}

fn read_tree(
    alloc: Global,
    tokens: &Tokens<'_>,
    tree: &ProblemTree<'_>,
) -> Result<Problem, ReadFault>
    requires few { length tokens.now < 2 ^ 32 }
    requires spelled { SpellsTree tokens.now (named_problem_of tree.now) }
    ensures { ReadsFrom tokens.now result }
{
    let (heads, tree) = numbers(alloc, tree)?;
    if let Some(flaw) = problem_flaw(&heads, &tree) {
        return Err(flaw_fault(tokens, flaw));
    }
    Ok(problem_of_tree(alloc, &heads, &tree)?)
}

fn read_tokens(alloc: Global, tokens: &Tokens<'_>) -> Result<Problem, ReadFault>
    requires few { length tokens.now < 2 ^ 32 }
    requires words { EndsOnce (map word_of tokens.now) }
    ensures { ReadsFrom tokens.now result }
{
    let tree = read_problem_tree(alloc, tokens)?;
    read_tree(alloc, tokens, &tree)
}

/// The problem that the bytes spell, with numbers by first occurrence in place of names; or the first fault of the
/// text: of its tokens, then of its grammar, then of what it says, each at the first place where it stands.
pub fn read_problem(alloc: Global, bytes: &[u8]) -> Result<Problem, ReadFault>
    requires { length bytes.now < 2 ^ 32 - 1 }
    ensures { Reads bytes.now result }
{
    let tokens = tokens(alloc, bytes)?;
    read_tokens(alloc, &tokens)
}

/// Bytes that spell a problem are read as that problem, unless memory runs out. The function does nothing.
pub fn spelled_problems_are_read()
    ensures { (p : ProblemValue) (bytes : List ℕ) (answer : Result ProblemValue ReadFaultValue) → IsRead bytes (Ok p)
        → Reads bytes answer → IsReadAgain p answer }
{}
