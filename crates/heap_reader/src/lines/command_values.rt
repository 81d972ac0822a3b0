// Values of the commands of lines.
ghost use Rattle.std.specs.Prelude.{◌≡◌, ◌<◌};
ghost use Rattle.heap_syntax.specs.declared.lines.tree.CommandTree.TheVariants.{If};
ghost use Rattle.heap_reader.specs.Small.{IsSmallTerm};
ghost use Rattle.heap_reader.specs.LineSmall.{IsSmallCommand};
ghost use Rattle.heap_reader.specs.LineValues.{operand_value, change_value, command_value};

use crate::lines::form::VariableReader;
use heap_formula::{Command, Term};
use heap_syntax::lines::{ChangeTree, CommandTree, OperandTree};

fn operand<F: VariableReader>(form: &F, tree: OperandTree<F::Variable>) -> Term
    requires { IsSmallTerm (operand_value F.value tree) }
    ensures { result ≡ operand_value F.value tree }
{
    match tree {
        OperandTree::Nil => Term::Nil,
        OperandTree::Variable(variable) => Term::Univ(form.value(variable)),
    }
}

/// What is done to a variable.
fn change<F: VariableReader>(form: &F, variable: u16, tree: ChangeTree<F::Variable>) -> Command
    requires { IsSmallCommand (change_value F.value variable tree) }
    ensures { result ≡ change_value F.value variable tree }
{
    match tree {
        ChangeTree::New(fields) => Command::New(variable, fields as u8),
        ChangeTree::Assign(value) => Command::Assign(variable, operand(form, value)),
        ChangeTree::Load(address, field) => {
            Command::Load(variable, operand(form, address), field as u8)
        }
        ChangeTree::Store(field, value) => {
            Command::Store(Term::Univ(variable), field as u8, operand(form, value))
        }
    }
}

fn branch<F: VariableReader>(
    form: &F,
    left: OperandTree<F::Variable>,
    is_equation: bool,
    right: OperandTree<F::Variable>,
    target: u32,
) -> Command
    requires { IsSmallCommand (command_value F.value (If left is_equation right target)) }
    ensures { result ≡ command_value F.value (If left is_equation right target) }
{
    if is_equation {
        Command::IfEq(operand(form, left), operand(form, right), target)
    } else {
        Command::IfNeq(operand(form, left), operand(form, right), target)
    }
}

/// The command that a tree says.
pub fn command<F: VariableReader>(form: &F, tree: CommandTree<F::Variable>) -> Command
    requires { IsSmallCommand (command_value F.value tree) }
    ensures { result ≡ command_value F.value tree }
{
    match tree {
        CommandTree::Stop => Command::Stop,
        CommandTree::IfAny(target) => Command::IfAny(target),
        CommandTree::Goto(target) => Command::Goto(target),
        CommandTree::Free(address) => Command::Free(operand(form, address)),
        CommandTree::If(left, is_equation, right, target) => {
            branch(form, left, is_equation, right, target)
        }
        CommandTree::StoreAtNil(field, value) => {
            Command::Store(Term::Nil, field as u8, operand(form, value))
        }
        CommandTree::Change(variable, tree) => change(form, form.value(variable), tree),
    }
}
