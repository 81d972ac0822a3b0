// Pairs of positions that move together.
ghost use Rattle.std.specs.Prelude.{◌≡◌, ◌<◌, ◌++◌, IfOk, OnOk};
ghost use Rattle.rule_logics.specs.Moved.{moved};

use cyc_basics::memory::OutOfMemory;
use std::alloc::Global;

/// Adds the pairs of the positions from `old` on with those from `new` on, along which no trace progresses.
pub fn push_moved(pairs: &mut Vec<(u8, u8, bool)>, old: u8, new: u8) -> Result<(), OutOfMemory>
    requires old { old < 200 }
    requires new { new < 200 }
    ensures { OnOk result (pairs.new.items ≡ pairs.old.items ++ moved 32 0 old new) }
{
    for place in 0..32u8 {
        pairs.push((old + place, new + place, false))?;
    }
    Ok(())
}

/// These pairs alone.
pub fn moved_pairs(alloc: Global, old: u8, new: u8) -> Result<Vec<(u8, u8, bool)>, OutOfMemory>
    requires old { old < 200 }
    requires new { new < 200 }
    ensures { IfOk result (λ v. v.items ≡ moved 32 0 old new) }
{
    let mut pairs = Vec::new(alloc);
    push_moved(&mut pairs, old, new)?;
    Ok(pairs)
}
