// The number that a program ends with.
ghost use Rattle.std.specs.Process.{exit_status};
ghost use Rattle.cyc_runs.specs.Exits.{IsExitOf};

use crate::endings::Status;
use cyc_basics::memory::OutOfMemory;
use std::process::ExitCode;

/// The exit code of a program whose run ended so, or which found no memory for its words.
pub fn exit_code(ended: Result<Status, OutOfMemory>) -> ExitCode
    ensures { IsExitOf ended (exit_status result) }
{
    let status = match ended {
        Ok(status) => status,
        Err(OutOfMemory) => Status::OutOfMemory,
    };
    ExitCode::from(status.code())
}
