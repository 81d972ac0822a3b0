//! Writing commands, each with the semicolon after it.

ghost use Rattle.std.specs.Prelude.{◌≡◌, OnOk};
ghost use Rattle.cyc_lex.specs.Writing.{write_all};
ghost use Rattle.heap_syntax.specs.Grammar.{sign};
ghost use Rattle.heap_syntax.specs.LineGrammar.{operand, last_number, store, source, change, branch, command};
ghost use Rattle.heap_syntax.specs.LineTrees.{operand_of, change_of, command_of};

use cyc_basics::memory::OutOfMemory;
use cyc_lex::WordWriter;
use heap_syntax::Version;
use heap_syntax::lines::{ChangeTree, CommandTree, OperandTree, WrittenVariable};

#[tactic(auto, unfolding(heap_syntax::specs::LineGrammar::operand, cyc_lex::specs::Writing::write_all))]
fn write_operand<'a, F: WrittenVariable<'a>>(
    form: &F,
    tree: OperandTree<F::Variable>,
    writer: &mut WordWriter,
) -> Result<(), OutOfMemory>
    requires { (operand (F.variables form.now)).fits (operand_of F.seen tree) }
    ensures { OnOk result
        (writer.new ≡ write_all writer.old ((operand (F.variables form.now)).words (operand_of F.seen tree))) }
{
    match tree {
        OperandTree::Nil => writer.name("nil"),
        OperandTree::Variable(variable) => form.write_variable(variable, writer),
    }
}

#[tactic(auto, unfolding(heap_syntax::specs::LineGrammar::last_number, cyc_lex::specs::Writing::write_all))]
fn write_last_number(number: u32, writer: &mut WordWriter) -> Result<(), OutOfMemory>
    ensures { OnOk result (writer.new ≡ write_all writer.old (last_number.words number)) }
{
    writer.number(number)?;
    writer.symbol(";")
}

#[tactic(auto, using(cyc_lex::proofs::WritingLaws::write_all_on), unfolding(heap_syntax::specs::LineGrammar::store, cyc_lex::specs::Writing::write_all))]
fn write_store<'a, F: WrittenVariable<'a>>(
    form: &F,
    field: u32,
    value: OperandTree<F::Variable>,
    writer: &mut WordWriter,
) -> Result<(), OutOfMemory>
    requires { (store (F.variables form.now)).fits (field, operand_of F.seen value) }
    ensures { OnOk result
        (writer.new ≡ write_all writer.old ((store (F.variables form.now)).words (field, operand_of F.seen value))) }
{
    writer.symbol(".")?;
    writer.number(field)?;
    writer.symbol(":=")?;
    write_operand(form, value, writer)?;
    writer.symbol(";")
}

#[tactic(auto, using(cyc_lex::proofs::WritingLaws::write_all_on), unfolding(heap_syntax::specs::LineGrammar::change, heap_syntax::specs::LineGrammar::source, heap_syntax::specs::LineGrammar::field, cyc_lex::specs::Writing::write_all))]
fn write_change<'a, F: WrittenVariable<'a>>(
    form: &F,
    tree: ChangeTree<F::Variable>,
    writer: &mut WordWriter,
) -> Result<(), OutOfMemory>
    requires { (change (F.variables form.now)).fits (change_of F.seen tree) }
    ensures { OnOk result
        (writer.new ≡ write_all writer.old ((change (F.variables form.now)).words (change_of F.seen tree))) }
{
    match tree {
        ChangeTree::New(fields) => {
            writer.symbol(":=")?;
            writer.name("new")?;
            write_last_number(fields, writer)
        }
        ChangeTree::Assign(value) => {
            writer.symbol(":=")?;
            write_operand(form, value, writer)?;
            writer.symbol(";")
        }
        ChangeTree::Load(address, field) => {
            writer.symbol(":=")?;
            write_operand(form, address, writer)?;
            writer.symbol(".")?;
            write_last_number(field, writer)
        }
        ChangeTree::Store(field, value) => write_store(form, field, value, writer),
    }
}

#[tactic(auto, unfolding(heap_syntax::specs::Grammar::sign, cyc_lex::specs::Writing::write_all))]
fn write_sign(is_equation: bool, writer: &mut WordWriter) -> Result<(), OutOfMemory>
    ensures { OnOk result (writer.new ≡ write_all writer.old (sign.words is_equation)) }
{
    if is_equation {
        writer.symbol("=")
    } else {
        writer.symbol("!=")
    }
}

/// Writes the condition and the line's number.
#[tactic(auto, using(cyc_lex::proofs::WritingLaws::write_all_on), unfolding(heap_syntax::specs::LineGrammar::branch, cyc_lex::specs::Writing::write_all))]
fn write_branch<'a, F: WrittenVariable<'a>>(
    form: &F,
    left: OperandTree<F::Variable>,
    is_equation: bool,
    right: OperandTree<F::Variable>,
    target: u32,
    writer: &mut WordWriter,
) -> Result<(), OutOfMemory>
    requires { (branch (F.variables form.now)).fits
        (operand_of F.seen left, (is_equation, (operand_of F.seen right, target))) }
    ensures { OnOk result
        (writer.new ≡ write_all writer.old
        ((branch (F.variables form.now)).words
        (operand_of F.seen left, (is_equation, (operand_of F.seen right, target))))) }
{
    write_operand(form, left, writer)?;
    write_sign(is_equation, writer)?;
    write_operand(form, right, writer)?;
    writer.name("goto")?;
    write_last_number(target, writer)
}

/// Writes a command and the semicolon after it.
#[tactic(auto, using(cyc_lex::proofs::WritingLaws::write_all_on), unfolding(heap_syntax::specs::LineGrammar::command, heap_syntax::specs::LineGrammar::behind_if, heap_syntax::specs::LineGrammar::free_branch, heap_syntax::specs::LineGrammar::update, cyc_lex::specs::Writing::write_all))]
pub fn write_command<'a, F: WrittenVariable<'a>>(
    form: &F,
    version: Version,
    tree: CommandTree<F::Variable>,
    writer: &mut WordWriter,
) -> Result<(), OutOfMemory>
    requires { (command version (F.variables form.now)).fits (command_of F.seen tree) }
    ensures { OnOk result
        (writer.new ≡ write_all writer.old ((command version (F.variables form.now)).words (command_of F.seen tree))) }
{
    match tree {
        CommandTree::Stop => {
            writer.name("stop")?;
            writer.symbol(";")
        }
        CommandTree::Goto(target) => {
            writer.name("goto")?;
            write_last_number(target, writer)
        }
        CommandTree::Free(address) => {
            writer.name("free")?;
            write_operand(form, address, writer)?;
            writer.symbol(";")
        }
        CommandTree::IfAny(target) => {
            writer.name("if")?;
            writer.symbol("*")?;
            writer.name("goto")?;
            write_last_number(target, writer)
        }
        CommandTree::If(left, is_equation, right, target) => {
            writer.name("if")?;
            write_branch(form, left, is_equation, right, target, writer)
        }
        CommandTree::StoreAtNil(field, value) => {
            writer.name("nil")?;
            write_store(form, field, value, writer)
        }
        CommandTree::Change(variable, change) => {
            form.write_variable(variable, writer)?;
            write_change(form, change, writer)
        }
    }
}
