// What a program of a logic of rules does with its words and its input.
ghost use Rattle.std.specs.Prelude.{◌≡◌, true, IfOk};
ghost use Rattle.std.specs.Process.{exit_status};
ghost use Rattle.cyc_io.specs.Causes.{Rose};
ghost use Rattle.cyc_runs.specs.Endings.{is_answer};
ghost use Rattle.cyc_runs.specs.Runs.{IsAnswerOf, WroteAnswer};
ghost use Rattle.rule_logics.specs.declared.texts.program.Task.{Task};
ghost use Rattle.rule_logics.specs.Answers.{usage_line};
ghost use Rattle.rule_logics.specs.Tasks.{IsAnswer, IsReading, IsSearchable, Succeeded};

use crate::RuleLogic;
use crate::texts::answers::Checker;
use crate::texts::prover::Prover;
use crate::texts::text::RuleText;
use cyc_basics::memory::OutOfMemory;
use cyc_io::{Sink, Source};
use cyc_runs::texts::Line;
use cyc_runs::{Answer, Status, exit_code, give_made, run_over};
use std::alloc::Global;
use std::process::ExitCode;

/// The depth to which a proof is searched where the words name none.
pub const DEPTH: u32 = 60;

/// The greatest depth that the words may name.
pub const MOST_SEARCHED: u32 = 400;

/// What the words ask for.
#[derive(Clone, Copy)]
pub enum Task {
    Check,
    Prove(u32),
    Usage,
}

/// A search as deep as the word says.
fn search_to(word: &str) -> Task
    ensures { IsSearchable result }
{
    match word.parse::<u32>() {
        Ok(depth) if depth <= MOST_SEARCHED => Task::Prove(depth),
        _ => Task::Usage,
    }
}

/// What the words after the program's name ask for.
pub fn task_of(words: &[String]) -> Task
    ensures { IsSearchable result }
{
    match words {
        [word] if word.as_str() == "check" => Task::Check,
        [word] if word.as_str() == "prove" => Task::Prove(DEPTH),
        [word, option, depth] if word.as_str() == "prove" && option.as_str() == "--depth" => {
            search_to(depth.as_str())
        }
        _ => Task::Usage,
    }
}

/// The words that have a meaning.
fn usage(alloc: Global, title: &str) -> Result<Answer, OutOfMemory>
    ensures { IfOk result (λ a. (a.status ≡ Status.Usage) × (a.text.items ≡ usage_line title.now)) }
{
    let mut line = Line::new(alloc);
    line.text("usage: ")?;
    line.text(title)?;
    line.text(" check | prove [--depth N]")?;
    let text = line.end()?;
    let status = Status::Usage;
    Ok(Answer { status, text })
}

/// Does what the task says: reads the source to its end and writes the answer, or writes the usage.
pub fn run<
    L: RuleLogic,
    X: RuleText<Judgement = L::Judgement, Rule = L::Rule, Fault = L::Fault>,
    S: Source,
    K: Sink,
>(alloc: Global, logic: &L, texts: &X, task: Task, src: &mut S, out: &mut K) -> Status
    requires { IsSearchable task }
    // The text of the answer to the bytes that the source told was written, whole.
    ensures answered { is_answer result ≡ true → IsReading task
        → WroteAnswer (IsAnswerOf (IsAnswer (L.rules logic.now) (X.text texts.now) (L.holds logic.now) task))
        (S.left src.old) (K.written out.old) (K.written out.new) result }
    // Success of `check`: the bytes spell a proof of what is true. Of `prove`: they spell what is true, and what was
    // written is a proof of it that `check` accepts.
    ensures headline { result ≡ Status.Success
        → Succeeded (L.rules logic.now) (X.text texts.now) (L.holds logic.now) (L.means logic.now) task
        (S.left src.old) (K.written out.old) (K.written out.new) }
    ensures read_fault { result ≡ Status.ReadFault → Rose (S.faults src.old) (S.faults src.new) × (out.new ≡ out.old) }
    ensures write_fault { result ≡ Status.WriteFault → Rose (K.faults out.old) (K.faults out.new) }
    ensures memory { result ≡ Status.OutOfMemory → out.new ≡ out.old }
{
    let logic = *logic;
    let texts = *texts;
    match task {
        Task::Check => run_over(alloc, &Checker { logic, texts }, src, out),
        Task::Prove(depth) => run_over(
            alloc,
            &Prover {
                logic,
                texts,
                depth,
            },
            src,
            out,
        ),
        Task::Usage => give_made(usage(alloc, texts.title()), out),
    }
}

/// All that `main` does but for its calls to the host: a run, and the number of its status.
pub fn run_program<
    L: RuleLogic,
    X: RuleText<Judgement = L::Judgement, Rule = L::Rule, Fault = L::Fault>,
    S: Source,
    K: Sink,
>(
    alloc: Global,
    logic: &L,
    texts: &X,
    words: Result<Vec<String>, OutOfMemory>,
    src: &mut S,
    out: &mut K,
) -> ExitCode
    ensures { IfOk words (λ w. exit_status result ≡ 0
        → (task : Task) × Succeeded (L.rules logic.now) (X.text texts.now) (L.holds logic.now) (L.means logic.now) task
        (S.left src.old) (K.written out.old) (K.written out.new)) }
{
    let ended = match words {
        Ok(words) => {
            let task = task_of(words.as_slice());
            Ok(run(alloc, logic, texts, task, src, out))
        }
        Err(OutOfMemory) => Err(OutOfMemory),
    };
    exit_code(ended)
}
