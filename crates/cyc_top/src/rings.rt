// The answer to a ring.
ghost use Rattle.std.specs.Prelude.{◌≡◌, ◌≤◌, ◌+◌, ◌*◌, IfOk};
ghost use Rattle.cyc_runs.specs.Texts.{ring_text};
ghost use Rattle.cyc_top.specs.Rings.{IsRing};

use check_answers::links_of;
use cyc_basics::memory::OutOfMemory;
use cyc_lex::ReadFault;
use cyc_runs::texts::ring_line;
use cyc_runs::{Answer, Status};
use proof_check::{Verdict, check};
use proof_file::ProofFile;
use proof_file::texts::{read_file, write_file};
use ring_family::ring_file;
use std::alloc::Global;

// The family's file of this size, as it is read from its text.
fn read_ring(alloc: Global, k: u32) -> Result<ProofFile, OutOfMemory>
    requires from_one { 1 ≤ k }
    requires most { k ≤ 2000 }
    ensures { IfOk result (IsRing k) }
{
    let text = write_file(alloc, &ring_file(alloc, k)?)?;
    match read_file(alloc, text.as_slice()) {
        Ok(file) => Ok(file),
        Err(fault) => match fault {
            ReadFault::OutOfMemory => Err(OutOfMemory),
            _ => unreachable!(),
        },
    }
}

// The line for a ring's file that is right.
fn accepted_ring(alloc: Global, k: u32, file: &ProofFile) -> Result<Vec<u8>, OutOfMemory>
    requires { IsRing k file.now }
    ensures { IfOk result (λ line. line.items ≡ ring_text k (8 * k + 1) 1) }
{
    let nodes = file.nodes.as_slice();
    ring_line(alloc, k, nodes.len() as u64, links_of(nodes) as u64)
}

/// The answer to the ring of this size: its file is written, read again and checked, and counted as it was read.
pub fn answer_to_ring(alloc: Global, k: u32) -> Result<Answer, OutOfMemory>
    requires from_one { 1 ≤ k }
    requires most { k ≤ 2000 }
    ensures status { IfOk result (λ a. a.status ≡ Status.Success) }
    ensures text { IfOk result (λ a. a.text.items ≡ ring_text k (8 * k + 1) 1) }
{
    let file = read_ring(alloc, k)?;
    match check(alloc, &file)? {
        Verdict::Accepted => {
            let text = accepted_ring(alloc, k, &file)?;
            Ok(Answer {
                status: Status::Success,
                text,
            })
        }
        _ => unreachable!(),
    }
}
