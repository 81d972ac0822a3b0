//! The top call of `draw`: words and a source of bytes in, a drawing and a status out. A drawing is a graph in
//! Graphviz's DOT language (Gansner and North 2000): a small part of it, as data and as text.
#![tactic(auto)]

ghost use Rattle.std.specs.Prelude.{◌≡◌, ◌+◌, ◌≤◌, IsSome, map, string_bytes, true};
ghost use Rattle.cyc_io.specs.Bytes.{CameAtMost};
ghost use Rattle.cyc_io.specs.Causes.{Rose};
ghost use Rattle.cyc_runs.specs.Endings.{is_answer};
ghost use Rattle.cyc_runs.specs.Runs.{IsReadThrough, input_limit};
ghost use Rattle.draw_top.specs.Answers.{WroteDrawing, WrotePartOfDrawing};
ghost use Rattle.draw_top.specs.Words.{view_of as view_by};

mod answering;
mod drawing;
mod edges;
mod escapes;
mod folds;
mod graph;
pub mod inputs;
mod laws;
mod named;
mod nodes;
mod program;
mod sets;
mod text;
mod titles;
mod words;
mod writing;

use answering::Drawer;
use cyc_io::{Sink, Source};
pub use cyc_runs::Status;
use cyc_runs::{fixed_answer, give_made, run_over};
pub use graph::{Arrow, Attribute, Cluster, Graph, Run, Style, Value, Vertex};
pub use laws::{marked_text_reads_back, quoted_strings_read_back};
pub use program::run_program;
use std::alloc::Global;
pub use words::View;
use words::view_of;
pub use writing::write_graph;

/// Draws the proof that the source holds, or says why it cannot be read: without words beyond the program's name each
/// node in a box of its own, with the word `--fold` chains, closed subtrees and lemmas as one; any other words give the
/// usage. The whole text is made before its first byte is written.
pub fn run<S: Source, K: Sink>(alloc: Global, words: &[String], src: &mut S, out: &mut K) -> Status
    // The text of the answer to the words and to the bytes that the source told was written, whole.
    ensures answered { is_answer result ≡ true
        → WroteDrawing (map string_bytes words.now) (S.left src.old) (K.written out.old) (K.written out.new) result }
    ensures through { is_answer result ≡ true → IsSome (view_by (map string_bytes words.now))
        → IsReadThrough (S.left src.old) (S.left src.new) }
    // However it ends, it reads no further than it needs to know that the input is too long.
    ensures taken { CameAtMost (S.left src.old) (S.left src.new) (input_limit + 1) }
    ensures read_fault { result ≡ Status.ReadFault → Rose (S.faults src.old) (S.faults src.new) × (out.new ≡ out.old) }
    ensures before_fault { result ≡ Status.ReadFault → CameAtMost (S.left src.old) (S.left src.new) input_limit }
    ensures write_fault { result ≡ Status.WriteFault → Rose (K.faults out.old) (K.faults out.new)
        × WrotePartOfDrawing (map string_bytes words.now) (S.left src.old) (K.written out.old) (K.written out.new) }
    // Neither a failed read nor a failed write ends so.
    ensures memory { result ≡ Status.OutOfMemory → (out.new ≡ out.old) × (S.faults src.new ≡ S.faults src.old) }
    // After a failed read or write no answer is given.
    ensures no_faults { is_answer result ≡ true
        → (S.faults src.new ≡ S.faults src.old) × (K.faults out.new ≡ K.faults out.old) }
    ensures counted { (S.faults src.old ≤ S.faults src.new) × (K.faults out.old ≤ K.faults out.new) }
{
    match view_of(words) {
        Some(view) => run_over(alloc, &Drawer { view }, src, out),
        None => give_made(
            fixed_answer(alloc, Status::Usage, "usage: draw [--fold]\n"),
            out,
        ),
    }
}
