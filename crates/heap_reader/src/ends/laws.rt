// Programs as their lines and their ends. The function does nothing.
ghost use Rattle.std.specs.Prelude.{◌≡◌, List, map};
ghost use Rattle.heap_formula.specs.declared.commands.Command.{Command};
ghost use Rattle.heap_reader.specs.EndValues.{with_ends, ends_of, bare};

/// A program is its lines without their ends, with its ends at the lines that they name.
pub fn programs_are_lines_with_ends()
    ensures { (lines : List Command) → with_ends (map bare lines) (ends_of lines) ≡ lines }
{}
