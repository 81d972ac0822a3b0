// The heads of loops.
use goto_lang::Program;
use heap_formula::Command;

/// Where a command may jump to.
fn target(command: &Command) -> Option<u32> {
    match command {
        Command::IfEq(_, _, line)
        | Command::IfNeq(_, _, line)
        | Command::IfAny(line)
        | Command::Goto(line) => Some(*line),
        _ => None,
    }
}

/// Whether a jump from the line or a later one leads to it.
pub fn is_head(program: &Program, line: u32) -> bool {
    let mut number: u32 = 0;
    for command in program.lines() {
        number = number.saturating_add(1);
        if number >= line && target(command) == Some(line) {
            return true;
        }
    }
    false
}

/// The command of a line, if there is one.
pub fn command_of(program: &Program, line: u32) -> Option<&Command> {
    if line == 0 {
        return None;
    }
    program.lines().get(line as usize - 1)
}

/// Whether the line is a `stop` with an end.
pub fn has_end(program: &Program, line: u32) -> bool {
    matches!(command_of(program, line), Some(Command::Ends(_)))
}
