// Telling a flaw by its token's line and column.
ghost use Rattle.std.specs.Prelude.{◌<◌, ◌^◌, length};
ghost use Rattle.heap_reader.specs.Told.{IsFlawTold};

use crate::flaw::Flaw;
use cyc_lex::{ReadFault, Tokens};

/// The flaw as a reader tells it, with its token's line and column.
pub fn flaw_fault(tokens: &Tokens<'_>, flaw: Flaw) -> ReadFault
    requires there { flaw.token < length tokens.now }
    requires few { length tokens.now < 2 ^ 32 }
    ensures { IsFlawTold tokens.now flaw result }
{
    let all = tokens.as_slice();
    let place = &all[flaw.token];
    flaw.item
        .fault_at(flaw.token as u32, place.line, place.column)
}
