//! Bytes after bytes.

ghost use Rattle.std.specs.Prelude.{◌≡◌, ◌++◌, IfOk};

use cyc_lex::OutOfMemory;
use std::alloc::Global;

/// One list of bytes after another.
pub fn joined(alloc: Global, front: &[u8], back: &[u8]) -> Result<Vec<u8>, OutOfMemory>
    ensures { IfOk result (λ v. v.items ≡ front.now ++ back.now) }
{
    let mut all = Vec::with_capacity(alloc, front.len() + back.len())?;
    all.extend_from_slice(front)?;
    all.extend_from_slice(back)?;
    Ok(all)
}
