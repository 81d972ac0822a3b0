//! Reading the lines of proof files.

ghost use Rattle.cyc_grammar.specs.Giving.{Gives};
ghost use Rattle.heap_syntax.specs.LineGrammar as commands;
ghost use Rattle.proof_syntax.specs.Grammar.{lines, variable};

use crate::form::DollarVariables;
use crate::tree::LineTree;
use cyc_grammar::{Cursor, Refusal};
use heap_syntax::Version;
use std::alloc::Global;

/// Reads one line of the program.
pub fn line(version: Version, cursor: &mut Cursor<'_, '_>) -> Result<LineTree, Refusal>
    ensures { Gives (λ x. (x, cursor.new)) result ((commands.line version variable).read cursor.old) }
{
    heap_syntax::lines::line(&DollarVariables, version, cursor)
}

/// Reads the lines of the program, of which there may be none.
pub fn lines(
    alloc: Global,
    version: Version,
    cursor: &mut Cursor<'_, '_>,
) -> Result<Vec<LineTree>, Refusal>
    ensures { Gives (λ x. (x.items, cursor.new)) result ((lines version).read cursor.old) }
{
    heap_syntax::lines::lines(alloc, &DollarVariables, version, cursor)
}
