// Answers to an input that comes in pieces.
ghost use Rattle.std.specs.Prelude.{◌≡◌, ◌+◌, ◌-◌, ◌<◌, ◌≤◌, ◌⊎◌, ℕ, List, [], length, IfOk, OnOk, IsErrOf, true};
ghost use Rattle.std.specs.Io.KnownBytes.{Keeps};
ghost use Rattle.cyc_io.specs.Bytes.{CameAtMost};
ghost use Rattle.cyc_io.specs.Causes.{Rose};
ghost use Rattle.cyc_runs.specs.Endings.{is_answer};
ghost use Rattle.cyc_runs.specs.Pieces.{IsFedAll, IsTurn, KeepsAnswers};
ghost use Rattle.cyc_runs.specs.Runs.{AnswersTold, IsAnswerOf, IsReadThrough, input_limit};

use crate::answers::{Answer, fixed_answer};
use crate::endings::Status;
use cyc_basics::memory::OutOfMemory;
use cyc_io::{Failed, Source};
use std::alloc::Global;

/// Why there is no answer.
#[derive(Clone, Copy)]
pub enum NoAnswer {
    ReadFault,
    OutOfMemory,
}

impl From<OutOfMemory> for NoAnswer {
    ghost use Rattle.std.specs.Prelude.{◌≡◌};
    ghost use Rattle.cyc_runs.specs.declared.pieces.NoAnswer.TheVariants as reasons;

    ghost from_gives = { λ _ reason. reason ≡ reasons.OutOfMemory };

    fn from(_error: OutOfMemory) -> NoAnswer {
        NoAnswer::OutOfMemory
    }
}

/// The greatest length of an input, in bytes.
pub const INPUT_LIMIT: usize = 16_777_216;

/// The greatest number of bytes that a tool is fed at once.
pub const PIECE_LIMIT: usize = 65_536;

/// What a program does with an input that comes in pieces.
pub trait PiecewiseTool {
    ghost use Rattle.cyc_runs.specs.declared.endings.Status.{Status};

    /// Where these bytes are the rest of the input, it is answered with this status and this text.
    ghost answers: { Self → List ℕ → Status → List ℕ → Type 0 };

    /// How many bytes it was fed.
    ghost fed: { Self → ℕ };

    /// Takes the next piece of an input within the limit.
    fn feed(&mut self, piece: &[u8]) -> Result<(), OutOfMemory>
        requires { fed self.old + length piece.now ≤ input_limit }
        ensures law { OnOk result (KeepsAnswers (answers self.old) piece.now (answers self.new)) }
        ensures count { OnOk result (fed self.new ≡ fed self.old + length piece.now) };

    /// The answer to the input, of which nothing is left.
    fn finish(self, alloc: Global) -> Result<Answer, OutOfMemory>
        requires { fed self ≤ input_limit }
        ensures answered { IfOk result (λ a. answers self [] a.status a.text.items) }
        ensures ending { IfOk result (λ a. is_answer a.status ≡ true) };
}

/// What one turn of reading came to.
#[derive(Clone, Copy)]
pub enum Turn {
    /// A piece was fed. The number is that of all bytes so far.
    Fed(usize),
    /// The source is at its end.
    Ended,
    /// One byte more came than an input may have.
    PastLimit,
}

/// Whether all of an input was fed.
#[derive(Clone, Copy)]
pub enum Extent {
    Whole,
    TooLong,
}

/// One turn of reading: the tool, which was fed so many bytes, is fed the next piece.
pub fn feed_piece<T: PiecewiseTool, S: Source>(
    tool: &mut T,
    src: &mut S,
    buffer: &mut [u8],
    count: usize,
) -> Result<Turn, NoAnswer>
    requires had { T.fed tool.old ≡ count }
    requires within { count ≤ input_limit }
    requires room { 0 < length buffer.old }
    ensures turn { IfOk result
        (IsTurn (T.answers tool.old) (T.answers tool.new) count (T.fed tool.new) (S.left src.old) (S.left src.new)) }
    // Each turn but the last takes at least one byte.
    ensures progress { IfOk result (λ t. (n : ℕ) → t ≡ Turn.Fed n → count < n) }
    ensures read_fault { IsErrOf result NoAnswer.ReadFault → Rose (S.faults src.old) (S.faults src.new) }
    // A failed read takes nothing, and nothing is taken after it.
    ensures kept { IsErrOf result NoAnswer.ReadFault → Keeps (S.left src.old) (S.left src.new) }
    ensures taken { CameAtMost (S.left src.old) (S.left src.new) (input_limit + 1 - count) }
    ensures no_faults { IsErrOf result NoAnswer.ReadFault ⊎ (S.faults src.new ≡ S.faults src.old) }
    ensures counted { S.faults src.old ≤ S.faults src.new }
{
    let room = (INPUT_LIMIT + 1 - count).min(buffer.len());
    let came = match src.read(&mut buffer[..room]) {
        Ok(came) => came,
        Err(Failed) => return Err(NoAnswer::ReadFault),
    };
    if came == 0 {
        return Ok(Turn::Ended);
    }
    if count + came > INPUT_LIMIT {
        return Ok(Turn::PastLimit);
    }
    tool.feed(&buffer[..came])?;
    Ok(Turn::Fed(count + came))
}

// Turns until the source is at its end, or one byte more came than an input may have.
fn feed_all<T: PiecewiseTool, S: Source>(
    tool: &mut T,
    src: &mut S,
    buffer: &mut [u8],
) -> Result<Extent, NoAnswer>
    requires none { T.fed tool.old ≡ 0 }
    requires room { 0 < length buffer.old }
    ensures fed { IfOk result
        (IsFedAll (T.answers tool.old) (T.answers tool.new) (T.fed tool.new) (S.left src.old) (S.left src.new)) }
    ensures read_fault { IsErrOf result NoAnswer.ReadFault → Rose (S.faults src.old) (S.faults src.new) }
    ensures before_fault { IsErrOf result NoAnswer.ReadFault
        → CameAtMost (S.left src.old) (S.left src.new) input_limit }
    ensures taken { CameAtMost (S.left src.old) (S.left src.new) (input_limit + 1) }
    ensures no_faults { IsErrOf result NoAnswer.ReadFault ⊎ (S.faults src.new ≡ S.faults src.old) }
    ensures counted { S.faults src.old ≤ S.faults src.new }
{
    let mut count = 0;
    'turns: loop {
        match feed_piece(tool, src, buffer, count)? {
            Turn::Fed(so_far) => count = so_far,
            Turn::Ended => return Ok(Extent::Whole),
            Turn::PastLimit => return Ok(Extent::TooLong),
        }
    }
}

// Room for one piece.
fn piece_buffer(alloc: Global) -> Result<Vec<u8>, OutOfMemory>
    ensures { IfOk result (λ buffer. 0 < length buffer.items) }
{
    Ok(vec![in alloc; 0u8; PIECE_LIMIT]?)
}

/// The tool's answer to what the source holds, of which at most one piece stands in memory at a time, beside what the
/// tool keeps.
pub fn answer_in_pieces<T: PiecewiseTool + Drop, S: Source>(
    alloc: Global,
    tool: T,
    src: &mut S,
) -> Result<Answer, NoAnswer>
    requires { T.fed tool ≡ 0 }
    ensures answered { IfOk result
        (λ a. AnswersTold (IsAnswerOf (T.answers tool)) (S.left src.old) a.status a.text.items) }
    ensures ending { IfOk result (λ a. is_answer a.status ≡ true) }
    ensures through { OnOk result (IsReadThrough (S.left src.old) (S.left src.new)) }
    ensures read_fault { IsErrOf result NoAnswer.ReadFault → Rose (S.faults src.old) (S.faults src.new) }
    ensures before_fault { IsErrOf result NoAnswer.ReadFault
        → CameAtMost (S.left src.old) (S.left src.new) input_limit }
    ensures taken { CameAtMost (S.left src.old) (S.left src.new) (input_limit + 1) }
    ensures no_faults { IsErrOf result NoAnswer.ReadFault ⊎ (S.faults src.new ≡ S.faults src.old) }
    ensures counted { S.faults src.old ≤ S.faults src.new }
{
    let mut tool = tool;
    let mut buffer = piece_buffer(alloc)?;
    let answer = match feed_all(&mut tool, src, buffer.as_mut_slice())? {
        Extent::Whole => tool.finish(alloc)?,
        Extent::TooLong => fixed_answer(alloc, Status::Limit, "limit input\n")?,
    };
    Ok(answer)
}
