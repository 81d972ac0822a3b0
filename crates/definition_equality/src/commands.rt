// Commands that are one as data.
ghost use Rattle.std.specs.Prelude.{◌≡◌, ◌↔◌, IsTrue};

use heap_formula::Command;

fn is_same_command(a: &Command, b: &Command) -> bool
    ensures { IsTrue result ↔ (a.now ≡ b.now) }
{
    *a == *b
}

/// Whether two lists of commands are one.
pub fn are_same_commands(a: &[Command], b: &[Command]) -> bool
    ensures { IsTrue result ↔ (a.now ≡ b.now) }
{
    if a.len() != b.len() {
        return false;
    }
    for (place, command) in a.iter().enumerate() {
        if !is_same_command(command, &b[place]) {
            return false;
        }
    }
    true
}
