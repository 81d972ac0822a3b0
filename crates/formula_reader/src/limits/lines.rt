// Commands that a text may have.
ghost use Rattle.std.specs.Prelude.{◌≡◌};
ghost use Rattle.heap_syntax.specs.LineGrammar.{has_free_branches as may_be_free};
ghost use Rattle.formula_reader.specs.Excess.{is_command_of, lines_excess as excess_of_lines};

use crate::limits::excess::ProblemExcess;
use cyc_basics::limits::Limits;
use heap_formula::Command;
use heap_syntax::Version;
use heap_syntax::ends::has_ends;

/// Free branches came with version 2.
fn has_free_branches(version: Version) -> bool
    ensures { result ≡ may_be_free version }
{
    match version {
        Version::One => false,
        Version::Two | Version::Three => true,
    }
}

/// Whether the version has the command, and cells may have the field, or as many.
fn has_command(version: Version, most: Limits, command: &Command) -> bool
    ensures { result ≡ is_command_of version most command.now }
{
    match command {
        Command::IfAny(_) => has_free_branches(version),
        Command::Load(_, _, field) => u32::from(*field) <= most.arguments,
        Command::Store(_, field, _) => u32::from(*field) <= most.arguments,
        Command::New(_, fields) => u32::from(*fields) <= most.arguments,
        Command::Ends(_) => has_ends(version),
        _ => true,
    }
}

/// The first line whose command the version does not have.
pub fn lines_excess(version: Version, most: Limits, lines: &[Command]) -> Option<ProblemExcess>
    ensures { result ≡ excess_of_lines version most lines.now }
{
    for (place, command) in lines.iter().enumerate() {
        if !has_command(version, most, command) {
            return Some(ProblemExcess::Command(place + 1));
        }
    }
    None
}
