// The lines of a prover, and of proofs that the program makes itself.
ghost use Rattle.std.specs.Prelude.{◌≡◌, IfOk};
ghost use Rattle.cyc_runs.specs.Texts.{not_found_text, ring_text};

use crate::texts::line::Line;
use cyc_basics::memory::OutOfMemory;
use std::alloc::Global;

/// The line for a search that found no proof within a depth.
pub fn not_found_line(alloc: Global, depth: u32) -> Result<Vec<u8>, OutOfMemory>
    ensures { IfOk result (λ bytes. bytes.items ≡ not_found_text depth) }
{
    let mut text = Line::new(alloc);
    text.text("not found depth ")?;
    text.number(depth as u64)?;
    text.end()
}

/// The line for the proof of a ring of `k` predicates, which is right: how many nodes and links there are.
pub fn ring_line(alloc: Global, k: u32, nodes: u64, links: u64) -> Result<Vec<u8>, OutOfMemory>
    ensures { IfOk result (λ bytes. bytes.items ≡ ring_text k nodes links) }
{
    let mut text = Line::new(alloc);
    text.text("ring ")?;
    text.number(k as u64)?;
    text.text(" accepted nodes ")?;
    text.number(nodes)?;
    text.text(" links ")?;
    text.number(links)?;
    text.end()
}
