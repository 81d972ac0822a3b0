// The ends of a program as trees, with the names of predicates borrowed from the definitions.
ghost use Rattle.std.specs.Prelude.{◌≡◌, map, IfOk};
ghost use Rattle.heap_reader.specs.Trees.{end_of};
ghost use Rattle.heap_reader.specs.Written.{end_tree, ends_tree};

use crate::definitions::heap_trees;
use cyc_basics::memory::OutOfMemory;
use goto_lang::Program;
use heap_formula::{Command, Def, Disjuncts};
use heap_syntax::definitions::TermTree;
use heap_syntax::ends::EndTree;
use std::alloc::Global;

fn end<'a>(
    alloc: Global,
    defs: &'a [Def],
    number: u32,
    disjuncts: &Disjuncts,
) -> Result<EndTree<'a, TermTree>, OutOfMemory>
    ensures { IfOk result (λ e. end_of e ≡ end_tree defs.now (number, disjuncts.now)) }
{
    let disjuncts = heap_trees(alloc, defs, disjuncts.heaps())?;
    Ok(EndTree { number, disjuncts })
}

/// The ends of a program as trees, in the order of their lines, with the names of predicates borrowed from the
/// definitions.
pub fn end_trees<'a>(
    alloc: Global,
    defs: &'a [Def],
    program: &Program,
) -> Result<Vec<EndTree<'a, TermTree>>, OutOfMemory>
    ensures { IfOk result (λ v. map end_of v.items ≡ ends_tree defs.now program.now) }
{
    let mut trees = Vec::new(alloc);
    for (i, command) in program.lines().iter().enumerate() {
        if let Command::Ends(disjuncts) = command {
            trees.push(end(alloc, defs, i as u32 + 1, disjuncts)?)?;
        }
    }
    Ok(trees)
}
