// Programs of numbered lines.
ghost use Rattle.std.specs.Prelude.{◌≡◌, ◌+◌, ◌<◌, ◌≤◌, List, length, max, IfOk, IsOkUnless, Result, Ok, Err, Some};
ghost use Rattle.std.specs.Prelude.{None};
ghost use Rattle.heap_formula.specs.declared.commands.Command.{Command};
ghost use Rattle.heap_formula.specs.Words.{Each};
ghost use Rattle.heap_formula.specs.Programs.{counted_from_one, command_bound, program_variables};
ghost use Rattle.heap_formula.specs.Programs.{is_end as ends_there, has_ends as some_end};
ghost use Rattle.heap_formula.specs.Fresh.{univ_bound};
ghost use Rattle.goto_lang.specs.Faults.{variable_fault, term_fault, field_fault, jump_fault, ends_fault};
ghost use Rattle.goto_lang.specs.Faults.{command_fault};
ghost use Rattle.goto_lang.specs.Faults.{goes_on as may_go_on, line_fault, program_fault, IsAnswer};
ghost use Rattle.goto_lang.specs.Lines.{IsUniversalCommand, commands_of, IsProgram};

use crate::faults::ProgramFault;
use cyc_basics::limits::{MOST_ARGUMENTS, MOST_LINES, MOST_VARIABLES};
use heap_formula::{Command, Count, Disjuncts, Term, bound_of_heaps};
use std::alloc::{AllocError, Global};
use std::marker::Model;

/// A program: the commands of its lines in order. Each jump leads to one of the lines, and the last line is `stop` or
/// `goto`, so a run never leaves them. No lines are a program too.
#[derive(Drop)]
pub struct Program {
    lines: Vec<Command>,
}

impl Model for Program {
    ghost use Rattle.std.specs.Prelude.{List};
    ghost use Rattle.heap_formula.specs.declared.commands.Command.{Command};
    ghost use Rattle.goto_lang.specs.Lines.{IsProgram};

    ghost Value = { List Command };

    ghost view = { λ p. p.lines.items };

    ghost invariant = { λ p. IsProgram p.lines.items };
}

impl Clone for Program {
    ghost is_clone = { λ program copy. copy ≡ program };

    fn clone(&self) -> Result<Program, AllocError> {
        let lines = self.lines.clone()?;
        Ok(Program { lines })
    }
}

fn fault_of_variable(variable: u16) -> Option<ProgramFault>
    ensures { result ≡ variable_fault variable }
{
    if u32::from(variable) >= MOST_VARIABLES {
        Some(ProgramFault::Limit(Count::ProgramVariables))
    } else {
        None
    }
}

fn fault_of_term(term: Term) -> Option<ProgramFault>
    ensures { result ≡ term_fault term }
{
    match term {
        Term::Nil | Term::Exist(_) => None,
        Term::Univ(n) => fault_of_variable(n),
    }
}

fn fault_of_field(k: u8) -> Option<ProgramFault>
    ensures { result ≡ field_fault k }
{
    if k == 0 || k > MOST_ARGUMENTS as u8 {
        Some(ProgramFault::Limit(Count::Fields))
    } else {
        None
    }
}

fn fault_of_jump(lines: usize, line: u32, target: u32) -> Option<ProgramFault>
    ensures { result ≡ jump_fault lines line target }
{
    if target == 0 || target as usize > lines {
        Some(ProgramFault::Jump(line))
    } else {
        None
    }
}

fn fault_of_ends(ends: &Disjuncts) -> Option<ProgramFault>
    ensures { result ≡ ends_fault ends.now }
{
    if bound_of_heaps(ends.heaps()) > MOST_VARIABLES {
        Some(ProgramFault::Limit(Count::ProgramVariables))
    } else {
        None
    }
}

fn fault_of_command(lines: usize, line: u32, command: &Command) -> Option<ProgramFault>
    ensures { result ≡ command_fault lines line command.now }
{
    match command {
        Command::Assign(x, t) => fault_of_variable(*x).or(fault_of_term(*t)),
        Command::Load(x, t, k) => {
            fault_of_variable(*x).or(fault_of_term(*t).or(fault_of_field(*k)))
        }
        Command::Store(t, k, u) => {
            fault_of_term(*t).or(fault_of_field(*k).or(fault_of_term(*u)))
        }
        Command::New(x, k) => fault_of_variable(*x).or(fault_of_field(*k)),
        Command::Free(t) => fault_of_term(*t),
        Command::IfEq(t, u, j) | Command::IfNeq(t, u, j) => {
            fault_of_term(*t).or(fault_of_term(*u).or(fault_of_jump(lines, line, *j)))
        }
        Command::IfAny(j) | Command::Goto(j) => fault_of_jump(lines, line, *j),
        Command::Stop => None,
        Command::Ends(ends) => fault_of_ends(ends),
    }
}

fn goes_on(command: &Command) -> bool
    ensures { result ≡ may_go_on command.now }
{
    !matches!(command, Command::Goto(_) | Command::Stop | Command::Ends(_))
}

fn fault_of_line(lines: usize, i: usize, number: u32, command: &Command) -> Option<ProgramFault>
    requires { i < lines }
    ensures { result ≡ line_fault lines (i + 1) (number, command.now) }
{
    if i + 1 == lines && goes_on(command) {
        return Some(ProgramFault::FallsOff);
    }
    if i >= MOST_LINES {
        return Some(ProgramFault::Limit(Count::Lines));
    }
    let line = i as u32 + 1;
    if number != line {
        return Some(ProgramFault::Numbering(line));
    }
    fault_of_command(lines, line, command)
}

fn fault_of_lines(lines: &[(u32, Command)]) -> Option<ProgramFault>
    ensures { result ≡ program_fault lines.now }
{
    for (i, (number, command)) in lines.iter().enumerate() {
        if let Some(fault) = fault_of_line(lines.len(), i, *number, command) {
            return Some(fault);
        }
    }
    None
}

fn commands(alloc: Global, lines: &[(u32, Command)]) -> Result<Vec<Command>, ProgramFault>
    ensures value { IfOk result (λ v. v.items ≡ commands_of lines.now) }
    ensures memory { IsOkUnless result ProgramFault.OutOfMemory }
{
    let mut made = Vec::new(alloc);
    for (_, command) in lines {
        made.push(command.clone()?)?;
    }
    Ok(made)
}

fn bound_of_term(term: Term) -> u32
    ensures { result ≡ univ_bound term }
{
    match term {
        Term::Nil | Term::Exist(_) => 0,
        Term::Univ(n) => n as u32 + 1,
    }
}

fn bound_of_command(command: &Command) -> u32
    ensures { result ≡ command_bound command.now }
{
    match command {
        Command::Assign(x, t) | Command::Load(x, t, _) => { (*x as u32 + 1).max(bound_of_term(*t)) }
        Command::Store(t, _, u) | Command::IfEq(t, u, _) | Command::IfNeq(t, u, _) => {
            bound_of_term(*t).max(bound_of_term(*u))
        }
        Command::New(x, _) => *x as u32 + 1,
        Command::Free(t) => bound_of_term(*t),
        Command::IfAny(_) | Command::Goto(_) | Command::Stop => 0,
        Command::Ends(ends) => bound_of_heaps(ends.heaps()),
    }
}

fn bound_of_lines(lines: &[Command]) -> u32
    ensures { result ≡ program_variables lines.now }
{
    let mut most = 0;
    for command in lines {
        most = most.max(bound_of_command(command));
    }
    most
}

fn is_end(command: &Command) -> bool
    ensures { result ≡ ends_there command.now }
{
    matches!(command, Command::Ends(_))
}

impl Program {
    /// The program of these lines, each with its number. No existential variable stands in them, but in ends.
    pub fn new(alloc: Global, lines: &[(u32, Command)]) -> Result<Program, ProgramFault>
        requires { Each IsUniversalCommand (commands_of lines.now) }
        ensures answer { IsAnswer result (program_fault lines.now) }
        ensures value { IfOk result (λ p. p ≡ commands_of lines.now) }
    {
        match fault_of_lines(lines) {
            Some(fault) => Err(fault),
            None => {
                let lines = commands(alloc, lines)?;
                Ok(Program { lines })
            }
        }
    }

    /// The commands in order; line i stands at place i - 1.
    pub fn lines(&self) -> &[Command]
        ensures value { result.now ≡ self.now }
        ensures program { IsProgram self.now }
    {
        &self.lines
    }

    /// The number of program variables: 1 plus the greatest variable number, 0 if there is none.
    pub fn variables(&self) -> u16
        ensures value { result ≡ program_variables self.now }
        ensures few { program_variables self.now ≤ MOST_VARIABLES }
    {
        bound_of_lines(self.lines()) as u16
    }

    /// Whether some line is a `stop` with an end.
    pub fn has_ends(&self) -> bool
        ensures { result ≡ some_end self.now }
    {
        for command in self.lines() {
            if is_end(command) {
                return true;
            }
        }
        false
    }

    /// The command of a line.
    pub fn command(&self, line: u32) -> &Command
        requires from_one { 0 < line }
        requires to_last { line ≤ length self.now }
        ensures there { counted_from_one self.now line ≡ Some result.now }
        ensures program { IsProgram self.now }
    {
        &self.lines[line as usize - 1]
    }
}
