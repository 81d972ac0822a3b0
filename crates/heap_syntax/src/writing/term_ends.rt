//! Writing ends with numbered variables.

ghost use Rattle.std.specs.Prelude.{◌≡◌, map, OnOk};
ghost use Rattle.cyc_lex.specs.Writing.{write_all};
ghost use Rattle.heap_syntax.specs.NumberedEnds.{end_of, ends};

use crate::Version;
use crate::definitions::{EndTree, NumberedForm};
use crate::writing::ends;
use cyc_basics::memory::OutOfMemory;
use cyc_lex::WordWriter;

/// Writes the ends of a program of a version.
pub fn write_ends(
    version: Version,
    trees: &[EndTree<'_>],
    writer: &mut WordWriter,
) -> Result<(), OutOfMemory>
    requires { (ends version).fits (map end_of trees.now) }
    ensures { OnOk result (writer.new ≡ write_all writer.old ((ends version).words (map end_of trees.now))) }
{
    ends::write_ends(&NumberedForm { universal: false }, version, trees, writer)
}
