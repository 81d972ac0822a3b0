//! Reading the lines of a program.

ghost use Rattle.std.specs.Prelude.{map};
ghost use Rattle.cyc_grammar.specs.Giving.{Gives, with_front};
ghost use Rattle.heap_syntax.specs.LineGrammar.{line, lines};
ghost use Rattle.heap_syntax.specs.LineTrees.{line_of};

use crate::Version;
use crate::lines::form::VariableForm;
use crate::lines::read_commands::command;
use crate::lines::tree::LineTree;
use cyc_grammar::{Cursor, Refusal};
use std::alloc::Global;

/// Reads one line of a program of a version.
#[tactic(auto, unfolding(crate::specs::LineGrammar::line))]
pub fn line<'a, F: VariableForm<'a>>(
    form: &F,
    version: Version,
    cursor: &mut Cursor<'_, 'a>,
) -> Result<LineTree<F::Variable>, Refusal>
    ensures { Gives (λ x. (line_of F.seen x, cursor.new)) result
        ((line version (F.variables form.now)).read cursor.old) }
{
    cursor.keyword("line")?;
    let number = cursor.number()?;
    cursor.symbol(":")?;
    let command = command(form, version, cursor)?;
    Ok(LineTree { number, command })
}

/// Reads the lines after some.
#[tactic(auto, unfolding(crate::specs::LineGrammar::lines))]
fn more_lines<'a, F: VariableForm<'a>>(
    form: &F,
    version: Version,
    mut items: Vec<LineTree<F::Variable>>,
    cursor: &mut Cursor<'_, 'a>,
) -> Result<Vec<LineTree<F::Variable>>, Refusal>
    ensures { Gives (λ x. (map (line_of F.seen) x.items, cursor.new)) result
        (with_front (map (line_of F.seen) items.items) ((lines version (F.variables form.now)).read cursor.old)) }
{
    for _ in 0..cursor.left() {
        if !cursor.is_keyword_next("line") {
            return Ok(items);
        }
        items.push(line(form, version, cursor)?)?;
    }
    if cursor.is_keyword_next("line") {
        return Err(Refusal::Dead(cursor.left()));
    }
    Ok(items)
}

/// Reads the lines of a program of a version, of which there may be none.
pub fn lines<'a, F: VariableForm<'a>>(
    alloc: Global,
    form: &F,
    version: Version,
    cursor: &mut Cursor<'_, 'a>,
) -> Result<Vec<LineTree<F::Variable>>, Refusal>
    ensures { Gives (λ x. (map (line_of F.seen) x.items, cursor.new)) result
        ((lines version (F.variables form.now)).read cursor.old) }
{
    let items: Vec<LineTree<F::Variable>> = Vec::new(alloc);
    more_lines(form, version, items, cursor)
}
