// Programs as the trees of their lines.
ghost use Rattle.std.specs.Prelude.{◌≡◌, IfOk};
ghost use Rattle.proof_file.specs.Written.{operand_tree, store_tree, command_tree, lines_tree};

use cyc_basics::memory::OutOfMemory;
use goto_lang::Program;
use heap_formula::{Command, Term};
use heap_syntax::lines::{ChangeTree, CommandTree, OperandTree};
use proof_syntax::LineTree;
use std::alloc::Global;

fn operand(value: Term) -> OperandTree<u32>
    ensures { result ≡ operand_tree value }
{
    match value {
        Term::Nil | Term::Exist(_) => OperandTree::Nil,
        Term::Univ(n) => OperandTree::Variable(u32::from(n)),
    }
}

fn store(address: Term, field: u8, value: Term) -> CommandTree<u32>
    ensures { result ≡ store_tree address field value }
{
    let field = u32::from(field);
    match address {
        Term::Nil | Term::Exist(_) => CommandTree::StoreAtNil(field, operand(value)),
        Term::Univ(n) => {
            CommandTree::Change(u32::from(n), ChangeTree::Store(field, operand(value)))
        }
    }
}

fn command(value: &Command) -> CommandTree<u32>
    ensures { result ≡ command_tree value.now }
{
    match value {
        Command::Stop | Command::Ends(_) => CommandTree::Stop,
        Command::IfAny(target) => CommandTree::IfAny(*target),
        Command::Goto(target) => CommandTree::Goto(*target),
        Command::Free(address) => CommandTree::Free(operand(*address)),
        Command::IfEq(left, right, target) => {
            CommandTree::If(operand(*left), true, operand(*right), *target)
        }
        Command::IfNeq(left, right, target) => {
            CommandTree::If(operand(*left), false, operand(*right), *target)
        }
        Command::New(x, fields) => {
            CommandTree::Change(u32::from(*x), ChangeTree::New(u32::from(*fields)))
        }
        Command::Assign(x, value) => {
            CommandTree::Change(u32::from(*x), ChangeTree::Assign(operand(*value)))
        }
        Command::Load(x, address, field) => {
            CommandTree::Change(
                u32::from(*x),
                ChangeTree::Load(operand(*address), u32::from(*field)),
            )
        }
        Command::Store(address, field, value) => store(*address, *field, *value),
    }
}

/// The lines of a program, numbered from 1.
pub fn lines(alloc: Global, program: &Program) -> Result<Vec<LineTree>, OutOfMemory>
    ensures { IfOk result (λ v. v.items ≡ lines_tree program.now) }
{
    let commands = program.lines();
    let mut trees = Vec::with_capacity(alloc, commands.len())?;
    for (i, value) in commands.iter().enumerate() {
        trees.push(LineTree {
            number: i as u32 + 1,
            command: command(value),
        })?;
    }
    Ok(trees)
}
