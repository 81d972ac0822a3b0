//! Reading commands, each with the semicolon after it.

ghost use Rattle.std.specs.Prelude.{◌≡◌};
ghost use Rattle.cyc_grammar.specs.Giving.{Gives};
ghost use Rattle.heap_syntax.specs.LineGrammar.{operand, last_number, store, source, change, branch, free_branch};
ghost use Rattle.heap_syntax.specs.LineGrammar.{has_free_branches as may_be_free, command};
ghost use Rattle.heap_syntax.specs.LineTrees.{operand_of, change_of, command_of};

use crate::lines::form::VariableForm;
use crate::lines::tree::{ChangeTree, CommandTree, OperandTree};
use crate::{Version, sign};
use cyc_grammar::{Cursor, Refusal};

#[tactic(auto, unfolding(crate::specs::LineGrammar::operand))]
fn operand<'a, F: VariableForm<'a>>(
    form: &F,
    cursor: &mut Cursor<'_, 'a>,
) -> Result<OperandTree<F::Variable>, Refusal>
    ensures { Gives (λ x. (operand_of F.seen x, cursor.new)) result ((operand (F.variables form.now)).read cursor.old) }
{
    if cursor.is_keyword_next("nil") {
        cursor.keyword("nil")?;
        return Ok(OperandTree::Nil);
    }
    Ok(OperandTree::Variable(form.read_variable(cursor)?))
}

#[tactic(auto, unfolding(crate::specs::LineGrammar::last_number))]
fn last_number(cursor: &mut Cursor<'_, '_>) -> Result<u32, Refusal>
    ensures { Gives (λ x. (x, cursor.new)) result (last_number.read cursor.old) }
{
    let number = cursor.number()?;
    cursor.symbol(";")?;
    Ok(number)
}

/// The field's number and what is stored there.
#[tactic(auto, unfolding(crate::specs::LineGrammar::store))]
fn store<'a, F: VariableForm<'a>>(
    form: &F,
    cursor: &mut Cursor<'_, 'a>,
) -> Result<(u32, OperandTree<F::Variable>), Refusal>
    ensures { Gives (λ x. ((x.0, operand_of F.seen x.1), cursor.new)) result
        ((store (F.variables form.now)).read cursor.old) }
{
    cursor.symbol(".")?;
    let field = cursor.number()?;
    cursor.symbol(":=")?;
    let value = operand(form, cursor)?;
    cursor.symbol(";")?;
    Ok((field, value))
}

#[tactic(auto, unfolding(crate::specs::LineGrammar::change, crate::specs::LineGrammar::source, crate::specs::LineGrammar::field))]
fn change<'a, F: VariableForm<'a>>(
    form: &F,
    cursor: &mut Cursor<'_, 'a>,
) -> Result<ChangeTree<F::Variable>, Refusal>
    ensures { Gives (λ x. (change_of F.seen x, cursor.new)) result ((change (F.variables form.now)).read cursor.old) }
{
    if cursor.is_symbol_next(".") {
        let (field, value) = store(form, cursor)?;
        return Ok(ChangeTree::Store(field, value));
    }
    cursor.symbol(":=")?;
    if cursor.is_keyword_next("new") {
        cursor.keyword("new")?;
        return Ok(ChangeTree::New(last_number(cursor)?));
    }
    let value = operand(form, cursor)?;
    if cursor.is_symbol_next(".") {
        cursor.symbol(".")?;
        return Ok(ChangeTree::Load(value, last_number(cursor)?));
    }
    cursor.symbol(";")?;
    Ok(ChangeTree::Assign(value))
}

/// The condition and the line's number.
#[tactic(auto, unfolding(crate::specs::LineGrammar::branch))]
fn branch<'a, F: VariableForm<'a>>(
    form: &F,
    cursor: &mut Cursor<'_, 'a>,
) -> Result<
    (
        OperandTree<F::Variable>,
        bool,
        OperandTree<F::Variable>,
        u32,
    ),
    Refusal,
>
    ensures { Gives (λ x. ((operand_of F.seen x.0, (x.1, (operand_of F.seen x.2, x.3))), cursor.new)) result
        ((branch (F.variables form.now)).read cursor.old) }
{
    let left = operand(form, cursor)?;
    let is_equation = sign(cursor)?;
    let right = operand(form, cursor)?;
    cursor.keyword("goto")?;
    let target = last_number(cursor)?;
    Ok((left, is_equation, right, target))
}

/// Whether files of the version may have free branches.
fn has_free_branches(version: Version) -> bool
    ensures { result ≡ may_be_free version }
{
    match version {
        Version::One => false,
        Version::Two | Version::Three => true,
    }
}

/// The line's number.
#[tactic(auto, unfolding(crate::specs::LineGrammar::free_branch))]
fn free_branch(cursor: &mut Cursor<'_, '_>) -> Result<u32, Refusal>
    ensures { Gives (λ x. (x, cursor.new)) result (free_branch.read cursor.old) }
{
    cursor.symbol("*")?;
    cursor.keyword("goto")?;
    last_number(cursor)
}

/// Reads a command and the semicolon after it.
#[tactic(auto, unfolding(crate::specs::LineGrammar::command, crate::specs::LineGrammar::behind_if, crate::specs::LineGrammar::update))]
pub fn command<'a, F: VariableForm<'a>>(
    form: &F,
    version: Version,
    cursor: &mut Cursor<'_, 'a>,
) -> Result<CommandTree<F::Variable>, Refusal>
    ensures { Gives (λ x. (command_of F.seen x, cursor.new)) result
        ((command version (F.variables form.now)).read cursor.old) }
{
    if cursor.is_keyword_next("stop") {
        cursor.keyword("stop")?;
        cursor.symbol(";")?;
        return Ok(CommandTree::Stop);
    }
    if cursor.is_keyword_next("goto") {
        cursor.keyword("goto")?;
        return Ok(CommandTree::Goto(last_number(cursor)?));
    }
    if cursor.is_keyword_next("free") {
        cursor.keyword("free")?;
        let address = operand(form, cursor)?;
        cursor.symbol(";")?;
        return Ok(CommandTree::Free(address));
    }
    if cursor.is_keyword_next("if") {
        cursor.keyword("if")?;
        if has_free_branches(version) && cursor.is_symbol_next("*") {
            return Ok(CommandTree::IfAny(free_branch(cursor)?));
        }
        let (left, is_equation, right, target) = branch(form, cursor)?;
        return Ok(CommandTree::If(left, is_equation, right, target));
    }
    if cursor.is_keyword_next("nil") {
        cursor.keyword("nil")?;
        let (field, value) = store(form, cursor)?;
        return Ok(CommandTree::StoreAtNil(field, value));
    }
    let variable = form.read_variable(cursor)?;
    Ok(CommandTree::Change(variable, change(form, cursor)?))
}
