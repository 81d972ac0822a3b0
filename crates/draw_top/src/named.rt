//! The drawing of a proof in the words of its problem.
ghost use Rattle.std.specs.Prelude.{◌<◌, ◌-◌, ◌^◌, length, map, IfOk};
ghost use Rattle.cyc_lex.specs.Word.{word};
ghost use Rattle.draw_top.specs.Answers.{IsNamedTextOf, IsTextIn, IsTitledText};
ghost use Rattle.proof_picture.specs.Naming.{naming_of};
ghost use Rattle.problem_syntax.specs.Trees.{problem_of};
ghost use Rattle.proof_picture.specs.Pieces.{pieces_of};

use crate::answering::graph_in;
use crate::titles::titled_graph;
use crate::words::View;
use crate::writing::write_graph;
use cyc_basics::memory::OutOfMemory;
use cyc_lex::{Token, tokens};
use problem_syntax::names::goal_names;
use problem_syntax::{ProblemTree, read_problem_tree};
use proof_check::check;
use proof_file::ProofFile;
use proof_picture::Label;
use proof_picture::names::{Naming, named_picture_of, program_lines, statements_of, title_of};
use std::alloc::Global;

/// The text of the picture of a file in a view, with this title, in these names.
fn titled_text(
    alloc: Global,
    view: View,
    file: &ProofFile,
    naming: &Naming<'_, '_>,
    title: Label,
) -> Result<Vec<u8>, OutOfMemory>
    ensures { IfOk result (λ text. IsTitledText view file.now (naming_of naming.now) (pieces_of title) text.items) }
{
    let verdict = check(alloc, file)?;
    let picture = named_picture_of(alloc, file, &verdict, naming)?;
    let is_large = picture.is_large;
    let graph = graph_in(alloc, view, picture)?;
    let graph = titled_graph(alloc, graph, title, is_large)?;
    write_graph(alloc, &graph)
}

/// The text of the picture of a file in a view, in the words of the problem with these tokens and this tree.
fn text_in(
    alloc: Global,
    view: View,
    file: &ProofFile,
    tokens: &[Token<'_>],
    tree: &ProblemTree<'_>,
) -> Result<Vec<u8>, OutOfMemory>
    ensures { IfOk result (λ text. IsTextIn view file.now (problem_of tree.now) (map word tokens.now) text.items) }
{
    let names = goal_names(alloc, tree)?;
    let statements = statements_of(alloc, tokens)?;
    let lines = program_lines(alloc, statements.as_slice())?;
    let title = title_of(alloc, statements.as_slice())?;
    let naming = Naming {
        names: names.as_slice(),
        lines: lines.as_slice(),
    };
    titled_text(alloc, view, file, &naming, title)
}

/// The text of the picture of a file in a view, in the words of the problem that these bytes spell. They were read
/// before, so that a fault is out of memory.
pub fn named_text(
    alloc: Global,
    view: View,
    file: &ProofFile,
    problem: &[u8],
) -> Result<Vec<u8>, OutOfMemory>
    requires { length problem.now < 2 ^ 32 - 1 }
    ensures { IfOk result (λ text. IsNamedTextOf view file.now problem.now text.items) }
{
    let Ok(tokens) = tokens(alloc, problem) else {
        return Err(OutOfMemory);
    };
    let Ok(tree) = read_problem_tree(alloc, &tokens) else {
        return Err(OutOfMemory);
    };
    text_in(alloc, view, file, tokens.as_slice(), &tree)
}
