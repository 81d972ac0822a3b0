// What command lines ask for.

/// What a command line asks for.
#[derive(Clone, Copy, Debug, PartialEq, Eq)]
pub enum Task {
    /// Check the proof file that the input spells.
    Check,
    /// Search the problem that the input spells for a proof, down to this depth, 1 to 40.
    Prove(u32),
    /// The ring family's file of this size, 1 to 2,000. No input is read.
    Ring(u32),
    /// Write the proof file that the input spells as one of version 2.
    Upgrade,
    /// Say whether some stack and heap satisfy the antecedent of the goal of the problem that the input spells.
    Sat,
    /// Say whether the stack and the heap of the model that the input spells satisfy its formula.
    Model,
    /// Search for a counter-model of the entailment of the problem that the input spells, with addresses and values up
    /// to this number, 1 to 4.
    Disprove(u32),
    /// Search the first-order problem that the input spells for a proof, down to this depth, 1 to 40.
    FirstOrderProve(u32),
    /// Check the first-order proof that the input spells.
    FirstOrderCheck,
}

/// The line that says which words have a meaning.
pub const USAGE: &str =
    "usage: cyclist check | prove [--depth N] | ring K | upgrade | sat | model | disprove [--cells N] | fo [--depth N] | fo-check\n";
