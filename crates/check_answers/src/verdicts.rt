// Answers to a check, by its input.
ghost use Rattle.std.specs.Prelude.{◌≡◌, ◌<◌, length, IfOk, true};
ghost use Rattle.cyc_runs.specs.Endings.{is_answer};
ghost use Rattle.file_reader.specs.Stages.{fresh};
ghost use Rattle.proof_file.specs.Links.{is_link as links};
ghost use Rattle.check_answers.specs.Answers.{link_count, nodes_text, verdict_status, verdict_text};

use cyc_basics::memory::OutOfMemory;
use cyc_runs::texts::{accepted_line, node_refused_line, path_refused_line};
use cyc_runs::{Answer, PiecewiseTool, Status, answer_to_fault, fixed_answer};
use file_reader::FileReader;
use heap_formula::Reason;
use proof_check::{Verdict, check};
use proof_file::{FileNode, ProofFile};
use std::alloc::Global;

fn is_link(node: &FileNode) -> bool
    ensures { result ≡ links node.now.reason }
{
    match node.reason {
        Reason::Step(_) => false,
        Reason::Back(_) => true,
    }
}

/// How many of the nodes are links.
pub fn links_of(nodes: &[FileNode]) -> usize
    ensures { result ≡ link_count nodes.now }
{
    let mut links = 0;
    for node in nodes {
        if is_link(node) {
            links += 1;
        }
    }
    links
}

// The line for a proof that is right.
fn file_line(alloc: Global, file: &ProofFile) -> Result<Vec<u8>, OutOfMemory>
    requires { 0 < length file.now.nodes }
    ensures { IfOk result (λ line. line.items ≡ nodes_text file.now.program file.now.nodes) }
{
    let nodes = file.nodes.as_slice();
    let links = links_of(nodes);
    match nodes {
        [root, ..] => {
            let program = &file.program;
            accepted_line(
                alloc,
                program,
                &root.judgement,
                nodes.len() as u64,
                links as u64,
            )
        }
        [] => unreachable!(),
    }
}

fn answer_to_verdict(
    alloc: Global,
    file: &ProofFile,
    verdict: Verdict,
) -> Result<Answer, OutOfMemory>
    requires { 0 < length file.now.nodes }
    ensures status { IfOk result (λ a. a.status ≡ verdict_status verdict) }
    ensures ending { IfOk result (λ a. is_answer a.status ≡ true) }
    ensures text { IfOk result (λ a. a.text.items ≡ verdict_text file.now verdict) }
{
    let (status, text) = match verdict {
        Verdict::Accepted => (Status::Success, file_line(alloc, file)?),
        Verdict::RuleRefused { node, fault } => {
            (Status::Refused, node_refused_line(alloc, node, fault)?)
        }
        Verdict::PathRefused { lasso } => (Status::Refused, path_refused_line(alloc, &lasso)?),
        Verdict::TooManyStates => return fixed_answer(alloc, Status::Limit, "limit states\n"),
    };
    Ok(Answer { status, text })
}

/// The command `check`.
#[derive(Drop)]
pub struct Checker {
    reader: FileReader,
}

impl Checker {
    /// A check that was fed nothing.
    pub fn new(alloc: Global) -> Checker
        ensures { result.reader ≡ fresh }
    {
        Checker {
            reader: FileReader::new(alloc),
        }
    }
}

impl PiecewiseTool for Checker {
    ghost use Rattle.file_reader.specs.Pieces.{bytes_fed};
    ghost use Rattle.check_answers.specs.Answers.{IsCheckedFrom};

    ghost answers = { λ checker. IsCheckedFrom checker.reader };

    ghost fed = { λ checker. bytes_fed checker.reader };

    fn feed(&mut self, piece: &[u8]) -> Result<(), OutOfMemory> {
        self.reader.feed(piece)
    }

    fn finish(self, alloc: Global) -> Result<Answer, OutOfMemory> {
        let Checker { reader } = self;
        match reader.finish() {
            Ok(file) => {
                let verdict = check(alloc, &file)?;
                answer_to_verdict(alloc, &file, verdict)
            }
            Err(fault) => answer_to_fault(alloc, fault),
        }
    }
}
