//! Reading whole run files.

ghost use Rattle.std.specs.Prelude.{◌≡◌, ◌<◌, ◌^◌, true, length, map};
ghost use Rattle.cyc_lex.specs.Word.{word_of, EndsOnce};
ghost use Rattle.cyc_grammar.specs.Syntax.{read_whole};
ghost use Rattle.cyc_grammar.specs.Classes.{are_tokens};
ghost use Rattle.cyc_grammar.specs.Faults.{Reads, IsRead};
ghost use Rattle.cyc_grammar.specs.Giving.{Gives, words};
ghost use Rattle.heap_syntax.specs.DefinitionTrees.{heap_of};
ghost use Rattle.heap_syntax.specs.NumberedEnds.{end_of, ends};
ghost use Rattle.proof_syntax.specs.Grammar.{lines};
ghost use Rattle.model_file.specs.Versions.{format_of};
ghost use Rattle.model_file.specs.Trees.{cell_of};
ghost use Rattle.model_file.specs.Grammar.{state};
ghost use Rattle.run_file.specs.Grammar.{state_claimed, then_step, growing, breaking, has_breaks as may_break, outcome};
ghost use Rattle.run_file.specs.Grammar.{ending, body, run};
ghost use Rattle.run_file.specs.Trees.{Run, run_of};

use crate::items::{cells, picks, value_pairs, values};
use crate::tree::{Outcome, RunTree};
use cyc_grammar::{Cursor, Refusal, read_fault};
use cyc_lex::{ReadFault, Token, Tokens};
use general_models::runs::{Growth, Renaming};
use heap_syntax::definitions::{EndTree, HeapTree, definitions, heap};
use model_file::syntax::CellTree;
use model_file::{ModelVersion, read_model_version};
use proof_syntax::{DollarVariables, LineTree};
use std::alloc::Global;

/// The lines of the program, of which there may be none.
fn lines(
    alloc: Global,
    version: ModelVersion,
    cursor: &mut Cursor<'_, '_>,
) -> Result<Vec<LineTree>, Refusal>
    ensures { Gives (λ x. (x.items, cursor.new)) result ((lines (format_of version)).read cursor.old) }
{
    heap_syntax::lines::lines(alloc, &DollarVariables, version.format(), cursor)
}

/// The ends of the program, of which there may be none.
fn ends<'a>(
    alloc: Global,
    version: ModelVersion,
    cursor: &mut Cursor<'_, 'a>,
) -> Result<Vec<EndTree<'a>>, Refusal>
    ensures { Gives (λ x. (map end_of x.items, cursor.new)) result ((ends (format_of version)).read cursor.old) }
{
    heap_syntax::definitions::ends(alloc, version.format(), cursor)
}

/// The line and the precondition that are claimed.
#[tactic(auto, unfolding(crate::specs::Grammar::state_claimed))]
fn state_claimed<'a>(
    alloc: Global,
    cursor: &mut Cursor<'_, 'a>,
) -> Result<(u32, HeapTree<'a>), Refusal>
    ensures { Gives (λ x. ((x.0, heap_of x.1), cursor.new)) result (state_claimed.read cursor.old) }
{
    cursor.keyword("from")?;
    let line = cursor.number()?;
    cursor.keyword("given")?;
    let precondition = heap(alloc, true, cursor)?;
    cursor.symbol(";")?;
    Ok((line, precondition))
}

/// The values of the stack and the cells of the heap.
#[tactic(auto, unfolding(model_file::specs::Grammar::state))]
fn state(alloc: Global, cursor: &mut Cursor<'_, '_>) -> Result<(Vec<u32>, Vec<CellTree>), Refusal>
    ensures { Gives (λ x. ((x.0.items, map cell_of x.1.items), cursor.new)) result (state.read cursor.old) }
{
    cursor.keyword("stack")?;
    let stack = values(alloc, cursor)?;
    cursor.keyword("heap")?;
    let cells = cells(alloc, cursor)?;
    Ok((stack, cells))
}

/// A number, and one of steps.
#[tactic(auto, unfolding(crate::specs::Grammar::then_step))]
fn then_step(cursor: &mut Cursor<'_, '_>) -> Result<(u32, u32), Refusal>
    ensures { Gives (λ x. (x, cursor.new)) result (then_step.read cursor.old) }
{
    let first = cursor.number()?;
    cursor.keyword("step")?;
    let step = cursor.number()?;
    Ok((first, step))
}

/// Two numbers of steps, and the pairs of values.
#[tactic(auto, unfolding(crate::specs::Grammar::growing))]
fn growing(alloc: Global, cursor: &mut Cursor<'_, '_>) -> Result<Growth, Refusal>
    ensures { Gives (λ x. (x, cursor.new)) result (growing.read cursor.old) }
{
    cursor.keyword("grows")?;
    cursor.keyword("step")?;
    let (first, again) = then_step(cursor)?;
    cursor.keyword("with")?;
    cursor.symbol("(")?;
    let pairs = value_pairs(alloc, cursor)?;
    Ok(Growth {
        first,
        again,
        renaming: Renaming::from_vec(pairs),
    })
}

/// Whether files of the version tell that a run breaks an end.
pub fn has_breaks(version: ModelVersion) -> bool
    ensures { result ≡ may_break version }
{
    match version {
        ModelVersion::One => false,
        ModelVersion::Three => true,
    }
}

/// The number of steps after which an end is broken.
#[tactic(auto, unfolding(crate::specs::Grammar::breaking))]
fn breaking(cursor: &mut Cursor<'_, '_>) -> Result<u32, Refusal>
    ensures { Gives (λ x. (x, cursor.new)) result (breaking.read cursor.old) }
{
    cursor.keyword("breaks")?;
    cursor.keyword("step")?;
    cursor.number()
}

#[tactic(auto, unfolding(crate::specs::Grammar::outcome, crate::specs::Grammar::faulting, crate::specs::Grammar::repeating, crate::specs::Grammar::breaking_or_growing))]
fn outcome(
    alloc: Global,
    version: ModelVersion,
    cursor: &mut Cursor<'_, '_>,
) -> Result<Outcome, Refusal>
    ensures { Gives (λ x. (x, cursor.new)) result ((outcome version).read cursor.old) }
{
    if cursor.is_keyword_next("faults") {
        cursor.keyword("faults")?;
        cursor.keyword("line")?;
        let (line, step) = then_step(cursor)?;
        return Ok(Outcome::Faults { line, step });
    }
    if cursor.is_keyword_next("repeats") {
        cursor.keyword("repeats")?;
        cursor.keyword("step")?;
        let (first, again) = then_step(cursor)?;
        return Ok(Outcome::Repeats { first, again });
    }
    if has_breaks(version) && cursor.is_keyword_next("breaks") {
        let step = breaking(cursor)?;
        return Ok(Outcome::Breaks { step });
    }
    let growth = growing(alloc, cursor)?;
    Ok(Outcome::Grows(growth))
}

/// How the run ends, and the last statement's word.
#[tactic(auto, unfolding(crate::specs::Grammar::ending))]
fn ending(
    alloc: Global,
    version: ModelVersion,
    cursor: &mut Cursor<'_, '_>,
) -> Result<Outcome, Refusal>
    ensures { Gives (λ x. (x, cursor.new)) result ((ending version).read cursor.old) }
{
    let outcome = outcome(alloc, version, cursor)?;
    cursor.symbol(";")?;
    cursor.keyword("end")?;
    Ok(outcome)
}

#[tactic(auto, unfolding(crate::specs::Grammar::body, crate::specs::Grammar::claim, crate::specs::Grammar::course))]
fn body<'a>(alloc: Global, cursor: &mut Cursor<'_, 'a>) -> Result<RunTree<'a>, Refusal>
    ensures { Gives (λ x. (run_of x, cursor.new)) result (body.read cursor.old) }
{
    cursor.keyword("cyclist")?;
    cursor.keyword("run")?;
    let version = read_model_version(cursor)?;
    cursor.symbol(";")?;
    let definitions = definitions(alloc, cursor)?;
    let lines = lines(alloc, version, cursor)?;
    let ends = ends(alloc, version, cursor)?;
    let (line, precondition) = state_claimed(alloc, cursor)?;
    let (stack, cells) = state(alloc, cursor)?;
    cursor.keyword("picks")?;
    let picks = picks(alloc, cursor)?;
    let outcome = ending(alloc, version, cursor)?;
    cursor.symbol(";")?;
    Ok(RunTree {
        version,
        definitions,
        lines,
        ends,
        line,
        precondition,
        stack,
        cells,
        picks,
        outcome,
    })
}

#[tactic(auto, unfolding(crate::specs::Grammar::run))]
fn whole_run<'a>(alloc: Global, tokens: &[Token<'a>]) -> Result<RunTree<'a>, Refusal>
    requires { are_tokens (words tokens.now) ≡ true }
    ensures { Gives run_of result (read_whole run (words tokens.now)) }
{
    let mut cursor = Cursor::new(tokens);
    let tree = body(alloc, &mut cursor)?;
    cursor.end()?;
    if cursor.left() > 0 {
        return Err(Refusal::Dead(cursor.left()));
    }
    Ok(tree)
}

/// The tree that the tokens spell, or the place of the first token that, with all before it, begins no run file.
pub fn read_tree<'a>(alloc: Global, tokens: &Tokens<'a>) -> Result<RunTree<'a>, ReadFault>
    requires few { length tokens.now < 2 ^ 32 }
    requires words { EndsOnce (map word_of tokens.now) }
    // What is read is spelled so; a fault stands at the first dead token.
    ensures exact { Reads run run_of tokens.now result }
    // What is spelled so is read, unless memory runs out.
    ensures again { (t : Run) → run.fits t → map word_of tokens.now ≡ run.words t → IsRead run_of t result }
{
    match whole_run(alloc, tokens.as_slice()) {
        Ok(tree) => Ok(tree),
        Err(refusal) => Err(read_fault(tokens, refusal)),
    }
}
