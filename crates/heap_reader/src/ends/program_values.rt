// Values of lines and ends that are a program.
ghost use Rattle.std.specs.Prelude.{◌≡◌, ◌<◌, ◌≤◌, map, drop, length, IfOk, None};
ghost use Rattle.heap_formula.specs.declared.commands.Command.TheVariants.{Ends};
ghost use Rattle.heap_formula.specs.Words.{Each};
ghost use Rattle.goto_lang.specs.Faults.{program_fault};
ghost use Rattle.goto_lang.specs.Lines.{commands_of};
ghost use Rattle.heap_reader.specs.Trees.{heap_of, end_of};
ghost use Rattle.heap_reader.specs.Values.{heap_value};
ghost use Rattle.heap_reader.specs.LineSmall.{IsSmallCommand, IsSmallLine};
ghost use Rattle.heap_reader.specs.LineValues.{command_value, line_value};
ghost use Rattle.heap_reader.specs.EndSmall.{IsSmallEnd};
ghost use Rattle.heap_reader.specs.EndValues.{end_value, line_with_end, lines_with_ends, with_ends};

use crate::lines::{VariableReader, command};
use crate::{Heads, TermReader, heap_values};
use cyc_basics::limits::MOST_PREDICATES;
use cyc_basics::memory::OutOfMemory;
use goto_lang::Program;
use heap_formula::{Command, Disjuncts};
use heap_syntax::ends::EndTree;
use heap_syntax::lines::{CommandTree, LineTree};
use std::alloc::Global;

/// The end that a tree says, as a command.
fn end<F: TermReader>(
    alloc: Global,
    heads: &Heads<'_>,
    form: &F,
    tree: &EndTree<'_, F::Term>,
) -> Result<Command, OutOfMemory>
    requires small { IsSmallEnd F.value (end_of tree.now) }
    requires few { length heads.now ≤ MOST_PREDICATES }
    ensures { IfOk result (λ c. c ≡ Ends (map (heap_value F.value heads.now) (map heap_of tree.now.disjuncts.items))) }
{
    let heaps = heap_values(alloc, heads, form, &tree.disjuncts)?;
    Ok(Command::Ends(Disjuncts::from_vec(heaps)))
}

/// The command of a line, where these ends are left, and how many of them it takes.
fn line_command<V: VariableReader, F: TermReader>(
    alloc: Global,
    heads: &Heads<'_>,
    variables: &V,
    terms: &F,
    line: usize,
    tree: CommandTree<V::Variable>,
    left: &[EndTree<'_, F::Term>],
) -> Result<(Command, usize), OutOfMemory>
    requires command { IsSmallCommand (command_value V.value tree) }
    requires ends { Each (IsSmallEnd F.value) (map end_of left.now) }
    requires few { length heads.now ≤ MOST_PREDICATES }
    ensures command { IfOk result (λ r. r.0 ≡ (line_with_end line (command_value V.value tree)
        (map (end_value F.value heads.now) (map end_of left.now))).0) }
    ensures left { IfOk result (λ r. map (end_value F.value heads.now) (map end_of (drop r.1 left.now))
        ≡ (line_with_end line (command_value V.value tree)
        (map (end_value F.value heads.now) (map end_of left.now))).1) }
    ensures taken { IfOk result (λ r. r.1 ≤ length left.now) }
{
    if left.is_empty() || left[0].number as usize != line {
        return Ok((command(variables, tree), 0));
    }
    Ok((end(alloc, heads, terms, &left[0])?, 1))
}

/// The commands of lines with ends in place of their own, each with its line's number.
fn commands<V: VariableReader, F: TermReader>(
    alloc: Global,
    heads: &Heads<'_>,
    variables: &V,
    terms: &F,
    lines: &[LineTree<V::Variable>],
    ends: &[EndTree<'_, F::Term>],
) -> Result<Vec<(u32, Command)>, OutOfMemory>
    requires lines { Each IsSmallLine (map (line_value V.value) lines.now) }
    requires ends { Each (IsSmallEnd F.value) (map end_of ends.now) }
    requires few { length heads.now ≤ MOST_PREDICATES }
    ensures { IfOk result (λ v. v.items ≡ lines_with_ends 0 (map (line_value V.value) lines.now)
        (map (end_value F.value heads.now) (map end_of ends.now))) }
{
    let mut made = Vec::with_capacity(alloc, lines.len())?;
    let mut done = 0;
    for (i, line) in lines.iter().enumerate() {
        let left = &ends[done..];
        let (command, taken) = line_command(
            alloc,
            heads,
            variables,
            terms,
            i + 1,
            line.command,
            left,
        )?;
        made.push((line.number, command))?;
        done += taken;
    }
    Ok(made)
}

/// The program that lines and ends say, where they are one.
pub fn program<V: VariableReader, F: TermReader>(
    alloc: Global,
    heads: &Heads<'_>,
    variables: &V,
    terms: &F,
    lines: &[LineTree<V::Variable>],
    ends: &[EndTree<'_, F::Term>],
) -> Result<Program, OutOfMemory>
    requires lines { program_fault (map (line_value V.value) lines.now) ≡ None }
    requires ends { program_fault (lines_with_ends 0 (map (line_value V.value) lines.now)
        (map (end_value F.value heads.now) (map end_of ends.now))) ≡ None }
    requires small { Each (IsSmallEnd F.value) (map end_of ends.now) }
    requires few { length heads.now ≤ MOST_PREDICATES }
    ensures { IfOk result (λ p. p ≡ with_ends (commands_of (map (line_value V.value) lines.now))
        (map (end_value F.value heads.now) (map end_of ends.now))) }
{
    let made = commands(alloc, heads, variables, terms, lines, ends)?;
    match Program::new(alloc, &made) {
        Ok(program) => Ok(program),
        // memory alone can be wanting: the lines are a program
        Err(_) => Err(OutOfMemory),
    }
}
