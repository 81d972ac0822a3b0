//! The names of the lines of a program, in the order of the text.

ghost use Rattle.std.specs.Prelude.{◌≡◌, ◌++◌, ◌∷◌, [], map, IfOk};
ghost use Rattle.std.specs.List.{flat_map};
ghost use Rattle.heap_syntax.specs.LineTrees.{operand_of, change_of, command_of};
ghost use Rattle.problem_syntax.specs.Trees.{text_of, line_of};
ghost use Rattle.problem_syntax.specs.Occurrences.{plain, operand_names as names_of_operand};
ghost use Rattle.problem_syntax.specs.Occurrences.{change_names as names_of_change, command_names as names_of_command};
ghost use Rattle.problem_syntax.specs.Occurrences.{lines_names as names_of_lines};
ghost use Rattle.problem_syntax.specs.NameViews.{name_of};

use crate::LineTree;
use crate::names::names::ProblemName;
use cyc_basics::memory::OutOfMemory;
use heap_syntax::lines::{ChangeTree, CommandTree, OperandTree};
use std::alloc::Global;

/// The names with a variable's after them; the functions below do the same for larger parts.
fn with_variable<'a>(
    mut names: Vec<ProblemName<'a>>,
    text: &'a str,
) -> Result<Vec<ProblemName<'a>>, OutOfMemory>
    ensures { IfOk result (λ v. map name_of v.items ≡ map name_of names.entry.items ++ plain text.entry.now ∷ []) }
{
    names.push(ProblemName {
        text,
        primed: false,
    })?;
    Ok(names)
}

fn with_operand<'a>(
    names: Vec<ProblemName<'a>>,
    operand: OperandTree<&'a str>,
) -> Result<Vec<ProblemName<'a>>, OutOfMemory>
    ensures { IfOk result (λ v. map name_of v.items
        ≡ map name_of names.entry.items ++ names_of_operand (operand_of text_of operand.entry)) }
{
    match operand {
        OperandTree::Nil => Ok(names),
        OperandTree::Variable(text) => with_variable(names, text),
    }
}

fn with_change<'a>(
    names: Vec<ProblemName<'a>>,
    change: ChangeTree<&'a str>,
) -> Result<Vec<ProblemName<'a>>, OutOfMemory>
    ensures { IfOk result (λ v. map name_of v.items
        ≡ map name_of names.entry.items ++ names_of_change (change_of text_of change.entry)) }
{
    match change {
        ChangeTree::New(_) => Ok(names),
        ChangeTree::Assign(value) | ChangeTree::Load(value, _) | ChangeTree::Store(_, value) => {
            with_operand(names, value)
        }
    }
}

fn with_command<'a>(
    names: Vec<ProblemName<'a>>,
    command: CommandTree<&'a str>,
) -> Result<Vec<ProblemName<'a>>, OutOfMemory>
    ensures { IfOk result (λ v. map name_of v.items
        ≡ map name_of names.entry.items ++ names_of_command (command_of text_of command.entry)) }
{
    match command {
        CommandTree::Stop | CommandTree::Goto(_) | CommandTree::IfAny(_) => Ok(names),
        CommandTree::Free(operand) | CommandTree::StoreAtNil(_, operand) => {
            with_operand(names, operand)
        }
        CommandTree::If(left, _, right, _) => with_operand(with_operand(names, left)?, right),
        CommandTree::Change(variable, change) => {
            with_change(with_variable(names, variable)?, change)
        }
    }
}

/// The names of the lines of a program.
pub fn lines_names<'a>(
    alloc: Global,
    lines: &[LineTree<'a>],
) -> Result<Vec<ProblemName<'a>>, OutOfMemory>
    ensures { IfOk result (λ v. map name_of v.items ≡ names_of_lines (map line_of lines.now)) }
{
    let mut names = Vec::new(alloc);
    for line in lines {
        names = with_command(names, line.command)?;
    }
    Ok(names)
}
