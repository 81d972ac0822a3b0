// How a run ends.
ghost use Rattle.std.specs.Prelude.{◌≡◌};

/// How a run ends. The line of each answer, from `Success` to `NotFound`, was written whole.
#[derive(Clone, Copy)]
pub enum Status {
    /// What was asked for was found or is right.
    Success,
    /// The proof isn't right.
    Refused,
    /// The words have no meaning.
    Usage,
    /// The input has no tokens or isn't of the grammar.
    Unreadable,
    /// The input is of the grammar, and breaks a rule beyond it.
    IllFormed,
    /// A limit was passed.
    Limit,
    /// The search ended without a proof.
    NotFound,
    /// A read failed, and nothing was written.
    ReadFault,
    /// A write failed; a proper part of the line was written.
    WriteFault,
    /// Memory was wanted and refused, and nothing was written.
    OutOfMemory,
}

impl Status {
    ghost use Rattle.cyc_runs.specs.Endings.{status_code};

    /// The exit status of the program, 0 to 9.
    pub fn code(self) -> u8
        ensures { result ≡ status_code self }
    {
        self as u8
    }
}
