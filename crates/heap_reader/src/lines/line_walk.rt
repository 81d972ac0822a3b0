// A walk over the lines of a program in the order of their tokens, up to the first flaw.
ghost use Rattle.std.specs.Prelude.{◌≡◌, ◌+◌, ◌<◌, ◌^◌};
ghost use Rattle.heap_syntax.specs.declared.lines.tree.ChangeTree.TheVariants.{Load, Store};
ghost use Rattle.heap_reader.specs.Spans.{total};
ghost use Rattle.heap_reader.specs.LineSpans.{operand_span, change_span, command_span, line_span};
ghost use Rattle.heap_reader.specs.Flaws.{IsName, IsWalk};
ghost use Rattle.heap_reader.specs.LineFlaws.{field_flaw as flaw_of_field, jump_flaw as flaw_of_jump};
ghost use Rattle.heap_reader.specs.LineFlaws.{goes_on as may_go_on, operand_flaw, change_flaw, branch_flaw};
ghost use Rattle.heap_reader.specs.LineFlaws.{command_flaw, line_head_flaw, line_flaw, lines_flaw};

use crate::lines::form::VariableReader;
use crate::{Flaw, ill, over};
use cyc_basics::limits::{Limits, MOST_LINES};
use cyc_lex::{IllFault, What};
use heap_syntax::lines::{ChangeTree, CommandTree, LineTree, OperandTree};

/// A number of fields, or of a field, at a token.
fn field_number(most: Limits, at: usize, number: u32) -> Result<(), Flaw>
    ensures { IsName result (flaw_of_field most at number) }
{
    if number == 0 || number > most.arguments {
        return Err(over(What::Fields, at));
    }
    Ok(())
}

/// The number of the line to which one of so many lines leads.
fn jump(count: usize, at: usize, number: u32) -> Result<(), Flaw>
    ensures { IsName result (flaw_of_jump count at number) }
{
    if number == 0 || number as usize > count {
        return Err(ill(IllFault::Jump, at));
    }
    Ok(())
}

fn operand<F: VariableReader>(
    form: &F,
    at: usize,
    tree: OperandTree<F::Variable>,
) -> Result<usize, Flaw>
    requires { at + operand_span F.span tree < 2 ^ 64 }
    ensures { IsWalk result (operand_flaw (F.flaw form.now) F.span at tree) (at + operand_span F.span tree) }
{
    match tree {
        OperandTree::Nil => Ok(at + 2),
        OperandTree::Variable(variable) => form.walk(at, variable),
    }
}

fn load<F: VariableReader>(
    form: &F,
    most: Limits,
    at: usize,
    address: OperandTree<F::Variable>,
    field: u32,
) -> Result<usize, Flaw>
    requires { at + operand_span F.span address + 2 < 2 ^ 64 }
    ensures { IsWalk result
        (change_flaw (F.flaw form.now) F.span most at (Load address field)) (at + operand_span F.span address + 2) }
{
    let number = operand(form, at, address)?;
    field_number(most, number, field)?;
    Ok(number + 2)
}

/// The field's number, and what is stored there.
fn store<F: VariableReader>(
    form: &F,
    most: Limits,
    at: usize,
    field: u32,
    value: OperandTree<F::Variable>,
) -> Result<usize, Flaw>
    requires { at + (2 + operand_span F.span value) < 2 ^ 64 }
    ensures { IsWalk result
        (change_flaw (F.flaw form.now) F.span most at (Store field value)) (at + (2 + operand_span F.span value)) }
{
    field_number(most, at, field)?;
    operand(form, at + 2, value)
}

/// What stands after a variable and the word after it, and the semicolon.
fn change<F: VariableReader>(
    form: &F,
    most: Limits,
    at: usize,
    tree: ChangeTree<F::Variable>,
) -> Result<usize, Flaw>
    requires { at + change_span F.span tree < 2 ^ 64 }
    ensures { IsWalk result (change_flaw (F.flaw form.now) F.span most at tree) (at + change_span F.span tree) }
{
    match tree {
        ChangeTree::New(fields) => {
            field_number(most, at + 1, fields)?;
            Ok(at + 3)
        }
        ChangeTree::Assign(value) => operand(form, at, value),
        ChangeTree::Load(address, field) => load(form, most, at, address, field),
        ChangeTree::Store(field, value) => store(form, most, at, field, value),
    }
}

/// The operands of a test and the line to which it may lead.
fn branch<F: VariableReader>(
    form: &F,
    count: usize,
    at: usize,
    left: OperandTree<F::Variable>,
    right: OperandTree<F::Variable>,
    target: u32,
) -> Result<usize, Flaw>
    requires { at + operand_span F.span left + operand_span F.span right + 2 < 2 ^ 64 }
    ensures { IsWalk result (branch_flaw (F.flaw form.now) F.span count at left right target)
        (at + operand_span F.span left + operand_span F.span right + 2) }
{
    let second = operand(form, at, left)?;
    let number = operand(form, second, right)?;
    jump(count, number, target)?;
    Ok(number + 2)
}

fn command<F: VariableReader>(
    form: &F,
    most: Limits,
    count: usize,
    at: usize,
    tree: CommandTree<F::Variable>,
) -> Result<usize, Flaw>
    requires { at + command_span F.span tree < 2 ^ 64 }
    ensures { IsWalk result (command_flaw (F.flaw form.now) F.span most count at tree) (at + command_span F.span tree) }
{
    match tree {
        CommandTree::Stop => Ok(at + 2),
        CommandTree::Goto(target) => {
            jump(count, at + 1, target)?;
            Ok(at + 3)
        }
        CommandTree::IfAny(target) => {
            jump(count, at + 3, target)?;
            Ok(at + 5)
        }
        CommandTree::Free(address) => operand(form, at + 1, address),
        CommandTree::If(left, _, right, target) => {
            branch(form, count, at + 1, left, right, target)
        }
        CommandTree::StoreAtNil(field, value) => store(form, most, at + 2, field, value),
        CommandTree::Change(variable, tree) => {
            let behind = form.walk(at, variable)?;
            change(form, most, behind, tree)
        }
    }
}

/// Whether the next line may follow.
fn goes_on<V: Copy + Drop>(tree: &CommandTree<V>) -> bool
    ensures { result ≡ may_go_on tree.now }
{
    !matches!(tree, CommandTree::Stop | CommandTree::Goto(_))
}

/// The word `line` and the number of the line at a place, from 0, of so many lines; the next may follow it or not.
fn line_head(count: usize, n: usize, at: usize, number: u32, follows: bool) -> Result<(), Flaw>
    requires there { n < count }
    requires fits { at + 1 < 2 ^ 64 }
    ensures { IsName result (line_head_flaw count n at number follows) }
{
    if n + 1 == count && follows {
        return Err(ill(IllFault::FallsOff, at));
    }
    if n >= MOST_LINES {
        return Err(over(What::Lines, at));
    }
    if number as usize != n + 1 {
        return Err(ill(IllFault::Numbering, at + 1));
    }
    Ok(())
}

fn line<F: VariableReader>(
    form: &F,
    most: Limits,
    count: usize,
    n: usize,
    at: usize,
    tree: LineTree<F::Variable>,
) -> Result<usize, Flaw>
    requires there { n < count }
    requires fits { at + line_span F.span tree < 2 ^ 64 }
    ensures { IsWalk result (line_flaw (F.flaw form.now) F.span most count n at tree) (at + line_span F.span tree) }
{
    line_head(count, n, at, tree.number, goes_on(&tree.command))?;
    command(form, most, count, at + 3, tree.command)
}

/// Goes over the lines of a program, the first of which begins at a token, and gives the token after them. There are at
/// most 4,096 lines, each numbered by its place from 1; jumps lead to lines, the last line stops or jumps, and cells
/// have at most as many fields as `most` says.
pub fn walk_lines<F: VariableReader>(
    form: &F,
    most: Limits,
    at: usize,
    lines: &[LineTree<F::Variable>],
) -> Result<usize, Flaw>
    requires { at + total (line_span F.span) lines.now < 2 ^ 64 }
    ensures { IsWalk result
        (lines_flaw (F.flaw form.now) F.span most at lines.now) (at + total (line_span F.span) lines.now) }
{
    let mut next = at;
    for (n, tree) in lines.iter().enumerate() {
        next = line(form, most, lines.len(), n, next, *tree)?;
    }
    Ok(next)
}
