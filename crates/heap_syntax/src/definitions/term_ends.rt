//! Reading ends.

ghost use Rattle.std.specs.Prelude.{map};
ghost use Rattle.cyc_grammar.specs.Giving.{Gives};
ghost use Rattle.heap_syntax.specs.NumberedEnds.{end_of, kept_end, ends};

use crate::definitions::form::NumberedForm;
use crate::definitions::tree::EndTree;
use crate::{Keep, Version};
use cyc_grammar::{Cursor, Refusal};
use std::alloc::Global;

/// An end; so much is kept of its disjuncts and of their lists.
pub fn kept_end<'a>(
    alloc: Global,
    keep: Keep,
    cursor: &mut Cursor<'_, 'a>,
) -> Result<EndTree<'a>, Refusal>
    ensures { Gives (λ x. (end_of x, cursor.new)) result ((kept_end keep).read cursor.old) }
{
    crate::ends::kept_end(alloc, &NumberedForm { universal: false }, keep, cursor)
}

/// The ends of a program of a version, of which there may be none.
pub fn ends<'a>(
    alloc: Global,
    version: Version,
    cursor: &mut Cursor<'_, 'a>,
) -> Result<Vec<EndTree<'a>>, Refusal>
    ensures { Gives (λ x. (map end_of x.items, cursor.new)) result ((ends version).read cursor.old) }
{
    crate::ends::ends(alloc, &NumberedForm { universal: false }, version, cursor)
}
