// Why a script is refused.
ghost use Rattle.script_reader.specs.Telling.{TellsAt};

use crate::trees::TreeFault;
use cyc_basics::memory::OutOfMemory;
use std::alloc::{AllocError, AllocFailed};

/// What is ill-formed in a script.
#[derive(Clone, Copy, PartialEq, Eq)]
pub enum IllScript {
    /// A name is declared twice, or is one of the theory's own.
    Duplicate,
    /// A name that nothing declares, or that is declared further on.
    Unknown,
    /// A name with another number of arguments than it takes.
    Arity,
    /// A term of one sort where one of another has to stand.
    Sort,
    /// The script asks nothing.
    Question,
}

/// What a script has too much of.
#[derive(Clone, Copy, PartialEq, Eq)]
pub enum ScriptLimit {
    /// A formula is nested too deep; each quantified variable counts.
    Depth,
    /// The formulas become too large, once what is defined stands in its place.
    Size,
    Sorts,
    Constants,
    Predicates,
    Constructors,
    /// A predicate or a cell has more than eight arguments or fields.
    Arguments,
}

/// What separation logic cannot say here.
#[derive(Clone, Copy, PartialEq, Eq)]
pub enum Unsupported {
    /// A command that changes the question or defines what is not supported.
    Command,
    /// A second question, or an assert behind the question.
    Question,
    /// A sort with arguments.
    Sort,
    /// A sort, a constant or a symbol of another theory.
    Theory,
    /// A function that takes arguments and is not defined, or that gives no truth value.
    Function,
    /// A heap whose cells are of no datatype, or of one that another heap has.
    Cell,
    /// A cell as a value.
    Nested,
    /// A term that is no variable, constant or `nil`.
    Term,
    /// A connective that is none of those of symbolic heaps.
    Connective,
    /// A universal quantifier.
    Quantifier,
    /// A separating implication.
    Wand,
    /// A constant within a recursive definition.
    Constant,
}

/// Why a script is refused, and the offset of the token at which.
#[derive(Clone, Copy, PartialEq, Eq)]
pub enum ScriptFault {
    Byte(usize),
    Utf8(usize),
    Syntax(usize),
    IllFormed(IllScript, usize),
    Limit(ScriptLimit, usize),
    Unsupported(Unsupported, usize),
    OutOfMemory,
}

impl From<OutOfMemory> for ScriptFault {
    ghost use Rattle.std.specs.Prelude.{◌≡◌};
    ghost use Rattle.script_reader.specs.declared.faults.ScriptFault.TheVariants as faults;

    ghost from_gives = { λ _ e. e ≡ faults.OutOfMemory };

    fn from(_error: OutOfMemory) -> ScriptFault {
        ScriptFault::OutOfMemory
    }
}

impl From<AllocError> for ScriptFault {
    ghost use Rattle.std.specs.Prelude.{◌≡◌};
    ghost use Rattle.script_reader.specs.declared.faults.ScriptFault.TheVariants as faults;

    ghost from_gives = { λ _ e. e ≡ faults.OutOfMemory };

    fn from(_error: AllocError) -> ScriptFault {
        ScriptFault::OutOfMemory
    }
}

impl<T: Drop> From<AllocFailed<T>> for ScriptFault {
    ghost use Rattle.std.specs.Prelude.{◌≡◌};
    ghost use Rattle.script_reader.specs.declared.faults.ScriptFault.TheVariants as faults;

    ghost from_gives = { λ _ e. e ≡ faults.OutOfMemory };

    fn from(_error: AllocFailed<T>) -> ScriptFault {
        ScriptFault::OutOfMemory
    }
}

impl From<TreeFault> for ScriptFault {
    ghost use Rattle.std.specs.Prelude.{◌≡◌};
    ghost use Rattle.script_reader.specs.Telling.{told};

    ghost from_gives = { λ fault e. e ≡ told fault };

    fn from(fault: TreeFault) -> ScriptFault {
        match fault {
            TreeFault::Byte(at) => ScriptFault::Byte(at),
            TreeFault::Utf8(at) => ScriptFault::Utf8(at),
            TreeFault::Syntax(at) => ScriptFault::Syntax(at),
            TreeFault::OutOfMemory => ScriptFault::OutOfMemory,
        }
    }
}

/// Something ill-formed at an offset.
pub fn ill<T>(what: IllScript, at: usize) -> Result<T, ScriptFault>
    ensures { TellsAt at result }
{
    Err(ScriptFault::IllFormed(what, at))
}

/// A limit that is passed at an offset.
pub fn over<T>(what: ScriptLimit, at: usize) -> Result<T, ScriptFault>
    ensures { TellsAt at result }
{
    Err(ScriptFault::Limit(what, at))
}

/// Something unsupported at an offset.
pub fn unsupported_at<T>(what: Unsupported, at: usize) -> Result<T, ScriptFault>
    ensures { TellsAt at result }
{
    Err(ScriptFault::Unsupported(what, at))
}
