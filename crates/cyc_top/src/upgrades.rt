// Answers to an upgrade, by its input.

use cyc_basics::memory::OutOfMemory;
use cyc_runs::{Answer, Status, Tool, answer_to_fault};
use proof_file::texts::{read_file, upgrade, write_file};
use std::alloc::Global;

/// The command `upgrade`: a file is written as one of version 2, whether it is correct or not.
pub struct Upgrader;

impl Tool for Upgrader {
    ghost use Rattle.cyc_top.specs.Answers.{IsUpgraded};

    ghost answers = { λ _. IsUpgraded };

    fn answer(&self, alloc: Global, input: &[u8]) -> Result<Answer, OutOfMemory> {
        match read_file(alloc, input) {
            Ok(file) => {
                let text = write_file(alloc, &upgrade(file))?;
                Ok(Answer {
                    status: Status::Success,
                    text,
                })
            }
            Err(fault) => answer_to_fault(alloc, fault),
        }
    }
}
