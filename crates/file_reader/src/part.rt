//! One statement before the nodes, as a tree.

ghost use Rattle.cyc_grammar.specs.Giving.{Gives};
ghost use Rattle.proof_syntax.specs.StatementTrees.{pred_or_later_of};
ghost use Rattle.file_reader.specs.Fronts.{kept_part};

use cyc_basics::limits::MOST_PURE;
use cyc_grammar::{Cursor, Refusal};
use heap_syntax::{Keep, Version};
use proof_syntax::statements::{
    LineOrLater, PredOrLater, kept_end_or_node, kept_line_or_later, kept_pred_or_later,
};
use std::alloc::Global;

/// More than any limit allows, the greatest of which is that of pure atoms: a longer list has a flaw before what is
/// left out.
pub const KEPT: Keep = Keep::Beyond(MOST_PURE);

/// What was read last of what stands before the nodes; the first statement counts as a definition.
#[derive(Clone, Copy)]
pub enum Behind {
    Definitions,
    Lines,
    Ends,
}

/// A definition, a line, an end or a node; after lines no definition, and after ends no line.
pub fn read_part<'a>(
    alloc: Global,
    version: Version,
    behind: Behind,
    cursor: &mut Cursor<'_, 'a>,
) -> Result<PredOrLater<'a>, Refusal>
    ensures { Gives (λ s. (pred_or_later_of s, cursor.new)) result (kept_part behind version cursor.old) }
{
    match behind {
        Behind::Definitions => kept_pred_or_later(alloc, KEPT, version, cursor),
        Behind::Lines => {
            let later = kept_line_or_later(alloc, KEPT, version, cursor)?;
            Ok(PredOrLater::Later(later))
        }
        Behind::Ends => {
            let later = kept_end_or_node(alloc, KEPT, version, cursor)?;
            Ok(PredOrLater::Later(LineOrLater::Later(later)))
        }
    }
}
