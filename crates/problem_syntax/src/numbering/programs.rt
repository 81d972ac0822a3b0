//! Lines of programs with numbers in place of names.

ghost use Rattle.std.specs.Prelude.{◌≡◌, map, IfOk};
ghost use Rattle.heap_syntax.specs.LineTrees as programs;
ghost use Rattle.problem_syntax.specs.Trees.{text_of, line_of};
ghost use Rattle.problem_syntax.specs.Numbering.{line as line_number, variable_in};
ghost use Rattle.problem_syntax.specs.Views.{names_of};

use crate::LineTree;
use crate::numbering::names::{NameUse, Names};
use cyc_basics::memory::OutOfMemory;
use heap_syntax::lines::{ChangeTree, CommandTree, OperandTree};
use std::alloc::Global;

fn variable<'a>(variables: &Names<'a>, text: &'a str) -> usize
    ensures { result ≡ variable_in (names_of variables.now) text.entry.now }
{
    variables.place_of(NameUse {
        text,
        primed: false,
    })
}

fn operand<'a>(variables: &Names<'a>, tree: OperandTree<&'a str>) -> OperandTree<usize>
    ensures { result
        ≡ programs.operand_of (variable_in (names_of variables.now)) (programs.operand_of text_of tree.entry) }
{
    match tree {
        OperandTree::Nil => OperandTree::Nil,
        OperandTree::Variable(text) => OperandTree::Variable(variable(variables, text)),
    }
}

fn change<'a>(variables: &Names<'a>, tree: ChangeTree<&'a str>) -> ChangeTree<usize>
    ensures { result
        ≡ programs.change_of (variable_in (names_of variables.now)) (programs.change_of text_of tree.entry) }
{
    match tree {
        ChangeTree::New(count) => ChangeTree::New(count),
        ChangeTree::Assign(value) => ChangeTree::Assign(operand(variables, value)),
        ChangeTree::Load(cell, field) => ChangeTree::Load(operand(variables, cell), field),
        ChangeTree::Store(field, value) => ChangeTree::Store(field, operand(variables, value)),
    }
}

fn command<'a>(variables: &Names<'a>, tree: CommandTree<&'a str>) -> CommandTree<usize>
    ensures { result
        ≡ programs.command_of (variable_in (names_of variables.now)) (programs.command_of text_of tree.entry) }
{
    match tree {
        CommandTree::Stop => CommandTree::Stop,
        CommandTree::Goto(target) => CommandTree::Goto(target),
        CommandTree::IfAny(target) => CommandTree::IfAny(target),
        CommandTree::Free(cell) => CommandTree::Free(operand(variables, cell)),
        CommandTree::If(left, is_equal, right, target) => {
            let left = operand(variables, left);
            CommandTree::If(left, is_equal, operand(variables, right), target)
        }
        CommandTree::StoreAtNil(field, value) => {
            CommandTree::StoreAtNil(field, operand(variables, value))
        }
        CommandTree::Change(text, tree) => {
            CommandTree::Change(variable(variables, text), change(variables, tree))
        }
    }
}

/// The lines of a program, whose names are numbered as these variables.
pub fn lines<'a>(
    alloc: Global,
    variables: &Names<'a>,
    trees: &[LineTree<'a>],
) -> Result<Vec<heap_syntax::lines::LineTree<usize>>, OutOfMemory>
    ensures { IfOk result (λ v. v.items ≡ map (line_number (names_of variables.now)) (map line_of trees.now)) }
{
    let mut lines = Vec::with_capacity(alloc, trees.len())?;
    for tree in trees {
        lines.push(heap_syntax::lines::LineTree {
            number: tree.number,
            command: command(variables, tree.command),
        })?;
    }
    Ok(lines)
}
