//! Reading goals and whole problems.

ghost use Rattle.std.specs.Prelude.{◌≡◌, ◌<◌, ◌^◌, true, length, map};
ghost use Rattle.cyc_lex.specs.Word.{word_of, EndsOnce};
ghost use Rattle.cyc_grammar.specs.Syntax.{read_whole};
ghost use Rattle.cyc_grammar.specs.Classes.{are_tokens};
ghost use Rattle.cyc_grammar.specs.Faults.{Reads, IsRead};
ghost use Rattle.cyc_grammar.specs.Giving.{Gives, words};
ghost use Rattle.problem_syntax.specs.Grammar.{heap, lines, ends, state, entailment, goal, last_part, body, problem};
ghost use Rattle.problem_syntax.specs.Trees.{Problem, heap_of, line_of, end_of, goal_of, problem_of};

use crate::form::{NameForm, NameVariables};
use crate::read_definitions::definitions;
use crate::tree::{EndTree, GoalTree, HeapTree, LineTree, ProblemTree};
use cyc_grammar::{Cursor, Refusal, read_fault};
use cyc_lex::{ReadFault, Token, Tokens};
use heap_syntax::{Mark, Version, heaps, read_version};
use std::alloc::Global;

fn goal_heap<'a>(alloc: Global, cursor: &mut Cursor<'_, 'a>) -> Result<HeapTree<'a>, Refusal>
    ensures { Gives (λ x. (heap_of x, cursor.new)) result ((heap true).read cursor.old) }
{
    heap_syntax::heap(alloc, &NameForm { primed: true }, cursor)
}

/// The number of a line and the symbolic state there.
#[tactic(auto, unfolding(crate::specs::Grammar::state))]
fn state<'a>(alloc: Global, cursor: &mut Cursor<'_, 'a>) -> Result<(u32, HeapTree<'a>), Refusal>
    ensures { Gives (λ x. ((x.0, heap_of x.1), cursor.new)) result (state.read cursor.old) }
{
    cursor.keyword("from")?;
    let line = cursor.number()?;
    cursor.keyword("given")?;
    let heap = goal_heap(alloc, cursor)?;
    cursor.symbol(";")?;
    Ok((line, heap))
}

/// The antecedent and the disjuncts.
#[tactic(auto, unfolding(crate::specs::Grammar::entailment, crate::specs::Grammar::disjuncts))]
fn entailment<'a>(
    alloc: Global,
    cursor: &mut Cursor<'_, 'a>,
) -> Result<(HeapTree<'a>, Vec<HeapTree<'a>>), Refusal>
    ensures { Gives (λ x. ((heap_of x.0, map heap_of x.1.items), cursor.new)) result (entailment.read cursor.old) }
{
    let antecedent = goal_heap(alloc, cursor)?;
    cursor.symbol("|-")?;
    let disjuncts = heaps(
        alloc,
        &NameForm { primed: true },
        &Mark::Keyword("or"),
        &Mark::Symbol(";"),
        cursor,
    )?;
    Ok((antecedent, disjuncts))
}

#[tactic(auto, unfolding(crate::specs::Grammar::goal))]
fn goal<'a>(alloc: Global, cursor: &mut Cursor<'_, 'a>) -> Result<GoalTree<'a>, Refusal>
    ensures { Gives (λ x. (goal_of x, cursor.new)) result (goal.read cursor.old) }
{
    if cursor.is_keyword_next("from") {
        let (line, heap) = state(alloc, cursor)?;
        return Ok(GoalTree::From(line, heap));
    }
    let (antecedent, disjuncts) = entailment(alloc, cursor)?;
    Ok(GoalTree::Entailment(antecedent, disjuncts))
}

/// The goal and the last statement.
#[tactic(auto, unfolding(crate::specs::Grammar::last_part))]
fn last_part<'a>(alloc: Global, cursor: &mut Cursor<'_, 'a>) -> Result<GoalTree<'a>, Refusal>
    ensures { Gives (λ x. (goal_of x, cursor.new)) result (last_part.read cursor.old) }
{
    cursor.keyword("goal")?;
    let goal = goal(alloc, cursor)?;
    cursor.keyword("end")?;
    cursor.symbol(";")?;
    Ok(goal)
}

fn lines<'a>(
    alloc: Global,
    version: Version,
    cursor: &mut Cursor<'_, 'a>,
) -> Result<Vec<LineTree<'a>>, Refusal>
    ensures { Gives (λ x. (map line_of x.items, cursor.new)) result ((lines version).read cursor.old) }
{
    heap_syntax::lines::lines(alloc, &NameVariables, version, cursor)
}

fn ends<'a>(
    alloc: Global,
    version: Version,
    cursor: &mut Cursor<'_, 'a>,
) -> Result<Vec<EndTree<'a>>, Refusal>
    ensures { Gives (λ x. (map end_of x.items, cursor.new)) result ((ends version).read cursor.old) }
{
    heap_syntax::ends::ends(alloc, &NameForm { primed: true }, version, cursor)
}

#[tactic(auto, unfolding(crate::specs::Grammar::body))]
fn body<'a>(alloc: Global, cursor: &mut Cursor<'_, 'a>) -> Result<ProblemTree<'a>, Refusal>
    ensures { Gives (λ x. (problem_of x, cursor.new)) result (body.read cursor.old) }
{
    cursor.keyword("cyclist")?;
    cursor.keyword("problem")?;
    let version = read_version(cursor)?;
    cursor.symbol(";")?;
    let definitions = definitions(alloc, cursor)?;
    let lines = lines(alloc, version, cursor)?;
    let ends = ends(alloc, version, cursor)?;
    let goal = last_part(alloc, cursor)?;
    Ok(ProblemTree {
        version,
        definitions,
        lines,
        ends,
        goal,
    })
}

#[tactic(auto, unfolding(crate::specs::Grammar::problem))]
fn whole_problem<'a>(alloc: Global, tokens: &[Token<'a>]) -> Result<ProblemTree<'a>, Refusal>
    requires { are_tokens (words tokens.now) ≡ true }
    ensures { Gives problem_of result (read_whole problem (words tokens.now)) }
{
    let mut cursor = Cursor::new(tokens);
    let problem = body(alloc, &mut cursor)?;
    cursor.end()?;
    if cursor.left() > 0 {
        return Err(Refusal::Dead(cursor.left()));
    }
    Ok(problem)
}

/// The tree that the tokens spell, or the place of the first token that, with all before it, begins no problem file.
pub fn read_problem_tree<'a>(
    alloc: Global,
    tokens: &Tokens<'a>,
) -> Result<ProblemTree<'a>, ReadFault>
    requires few { length tokens.now < 2 ^ 32 }
    requires words { EndsOnce (map word_of tokens.now) }
    // What is read is spelled so; a fault stands at the first dead token.
    ensures exact { Reads problem problem_of tokens.now result }
    // What is spelled so is read, unless memory runs out.
    ensures again { (t : Problem) → problem.fits t → map word_of tokens.now ≡ problem.words t
        → IsRead problem_of t result }
{
    match whole_problem(alloc, tokens.as_slice()) {
        Ok(tree) => Ok(tree),
        Err(refusal) => Err(read_fault(tokens, refusal)),
    }
}
