//! Reading problem files.

ghost use Rattle.std.specs.Prelude.{◌≡◌, ◌<◌, ◌^◌, true, length, map};
ghost use Rattle.cyc_lex.specs.Word.{word_of, EndsOnce};
ghost use Rattle.cyc_grammar.specs.Syntax.{read_whole};
ghost use Rattle.cyc_grammar.specs.Classes.{are_tokens};
ghost use Rattle.cyc_grammar.specs.Faults.{Reads, IsRead};
ghost use Rattle.cyc_grammar.specs.Giving.{Gives, words};
ghost use Rattle.fo_syntax.specs.ProblemGrammar.{goal as goal_syntax, problem_body, problem as problem_syntax};
ghost use Rattle.fo_syntax.specs.ProblemTrees.{Problem, sequent_of, problem_of};

use crate::problems::sequents::sequent;
use crate::problems::theories::{constructors, definitions};
use crate::problems::tree::{ProblemTree, SequentTree};
use cyc_grammar::{Cursor, Refusal, read_fault};
use cyc_lex::{ReadFault, Token, Tokens};
use heap_syntax::first_version;
use std::alloc::Global;

#[tactic(auto, unfolding(crate::specs::ProblemGrammar::goal))]
fn goal<'a>(alloc: Global, cursor: &mut Cursor<'_, 'a>) -> Result<SequentTree<'a>, Refusal>
    ensures { Gives (λ x. (sequent_of x, cursor.new)) result (goal_syntax.read cursor.old) }
{
    cursor.keyword("goal")?;
    let goal = sequent(alloc, cursor)?;
    cursor.symbol(";")?;
    cursor.keyword("end")?;
    cursor.symbol(";")?;
    Ok(goal)
}

#[tactic(auto, unfolding(crate::specs::ProblemGrammar::problem_body))]
fn body<'a>(alloc: Global, cursor: &mut Cursor<'_, 'a>) -> Result<ProblemTree<'a>, Refusal>
    ensures { Gives (λ x. (problem_of x, cursor.new)) result (problem_body.read cursor.old) }
{
    cursor.keyword("cyclist")?;
    cursor.keyword("foproblem")?;
    first_version(cursor)?;
    cursor.symbol(";")?;
    let constructors = constructors(alloc, cursor)?;
    let definitions = definitions(alloc, cursor)?;
    let goal = goal(alloc, cursor)?;
    Ok(ProblemTree {
        constructors,
        definitions,
        goal,
    })
}

#[tactic(auto, unfolding(crate::specs::ProblemGrammar::problem))]
fn whole_problem<'a>(alloc: Global, tokens: &[Token<'a>]) -> Result<ProblemTree<'a>, Refusal>
    requires { are_tokens (words tokens.now) ≡ true }
    ensures { Gives problem_of result (read_whole problem_syntax (words tokens.now)) }
{
    let mut cursor = Cursor::new(tokens);
    let problem = body(alloc, &mut cursor)?;
    cursor.end()?;
    if cursor.left() > 0 {
        return Err(Refusal::Dead(cursor.left()));
    }
    Ok(problem)
}

/// The tree that the tokens spell, or the place of the first token that, with all before it, begins no problem file of
/// first-order logic.
pub fn read_problem_tree<'a>(
    alloc: Global,
    tokens: &Tokens<'a>,
) -> Result<ProblemTree<'a>, ReadFault>
    requires few { length tokens.now < 2 ^ 32 }
    requires words { EndsOnce (map word_of tokens.now) }
    // What is read is spelled so; a fault stands at the first dead token.
    ensures exact { Reads problem_syntax problem_of tokens.now result }
    // What is spelled so is read, unless memory runs out.
    ensures again { (t : Problem) → problem_syntax.fits t → map word_of tokens.now ≡ problem_syntax.words t
        → IsRead problem_of t result }
{
    match whole_problem(alloc, tokens.as_slice()) {
        Ok(tree) => Ok(tree),
        Err(refusal) => Err(read_fault(tokens, refusal)),
    }
}
