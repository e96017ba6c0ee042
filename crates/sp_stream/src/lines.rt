// One line after the other.
ghost use Rattle.std.specs.Prelude.{◌≡◌, ◌==◌, ◌++◌, [], ◌∷◌, List, ℕ, position, OnOk, IfErr};
ghost use Rattle.std.specs.List.{concat};
ghost use Rattle.sp_stream.specs.Lines.{IsOneLine, unless_empty};
ghost use Rattle.sp_stream.specs.Transcript.{replies, state_after, texts_of, transcript};
ghost use Rattle.sp_stream.specs.Writing.{Feeds, Puts, Stops};
ghost use Rattle.sp_stream.specs.declared.lines.Stop.TheVariants.{Write, Memory};

use crate::Answers;
use crate::output::deliver;
use sp_base::{Failed, Sink};
use std::alloc::AllocError;

/// The byte that ends a line.
pub const NEWLINE: u8 = b'\n';

/// The byte that ends a line has the code 10.
pub fn newline_law()
    ensures { NEWLINE ≡ 10 }
{}

/// Why a run stops in mid-stream.
#[derive(Clone, Copy, Debug, PartialEq, Eq)]
pub enum Stop {
    Write,
    Memory,
}

impl From<Failed> for Stop {
    ghost from_gives = { λ _ stop. stop ≡ Write };

    fn from(_failed: Failed) -> Stop {
        Stop::Write
    }
}

impl From<AllocError> for Stop {
    ghost from_gives = { λ _ stop. stop ≡ Memory };

    fn from(_error: AllocError) -> Stop {
        Stop::Memory
    }
}

/// The place of the first newline.
pub(crate) fn newline_in(bytes: &[u8]) -> Option<usize>
    ensures { result ≡ position (λ b. b == NEWLINE) bytes.now }
{
    bytes.iter().position(|byte| *byte == NEWLINE)
}

/// Answers a line. The reply is made whole before it is written.
fn answer_line<K: Sink, A: Answers>(
    sink: &mut K,
    answers: &mut A,
    line: &[u8],
    reply: &mut Vec<u8>,
) -> Result<(), Stop>
    ensures same { OnOk result (A.rules answers.new ≡ A.rules answers.old) }
    ensures next { OnOk result (A.state answers.new ≡ (A.rules answers.old).next (A.state answers.old) line.now) }
    ensures puts { OnOk result (Puts K.written K.steady K.faults sink.old sink.new
        ((A.rules answers.old).reply (A.state answers.old) line.now)) }
    ensures stops { IfErr result (Stops K.written K.steady K.faults sink.old sink.new
        ((A.rules answers.old).reply (A.state answers.old) line.now ∷ [])) }
{
    reply.clear();
    answers.answer(line, reply)?;
    deliver(sink, reply)?;
    Ok(())
}

/// Answers the line that `pending` begins and `last` ends.
fn end_line<K: Sink, A: Answers>(
    sink: &mut K,
    answers: &mut A,
    pending: &mut Vec<u8>,
    reply: &mut Vec<u8>,
    last: &[u8],
) -> Result<(), Stop>
    ensures same { OnOk result (A.rules answers.new ≡ A.rules answers.old) }
    ensures next { OnOk result (A.state answers.new ≡
        (A.rules answers.old).next (A.state answers.old) (pending.old.items ++ last.now)) }
    ensures cleared { OnOk result (pending.new.items ≡ []) }
    ensures puts { OnOk result (Puts K.written K.steady K.faults sink.old sink.new
        ((A.rules answers.old).reply (A.state answers.old) (pending.old.items ++ last.now))) }
    ensures stops { IfErr result (Stops K.written K.steady K.faults sink.old sink.new
        ((A.rules answers.old).reply (A.state answers.old) (pending.old.items ++ last.now) ∷ [])) }
{
    if pending.is_empty() {
        return answer_line(sink, answers, last, reply);
    }
    pending.extend_from_slice(last)?;
    answer_line(sink, answers, pending, reply)?;
    pending.clear();
    Ok(())
}

/// Takes the next bytes of the input: answers each line that is whole now, and keeps in `pending` what the last begins.
pub(crate) fn feed<K: Sink, A: Answers>(
    sink: &mut K,
    answers: &mut A,
    pending: &mut Vec<u8>,
    reply: &mut Vec<u8>,
    chunk: &[u8],
) -> Result<(), Stop>
    requires { IsOneLine pending.old.items }
    ensures same { OnOk result (A.rules answers.new ≡ A.rules answers.old) }
    ensures feeds { OnOk result (Feeds K.written K.steady K.faults sink.old sink.new
        (A.rules answers.old) (A.state answers.old) (A.state answers.new)
        pending.new.items (pending.old.items ++ chunk.now)) }
    ensures stops { IfErr result (λ stop. (more : List ℕ) → Stops K.written K.steady K.faults sink.old sink.new
        (texts_of (A.rules answers.old) (A.state answers.old) (pending.old.items ++ (chunk.now ++ more))) stop) }
{
    let mut rest = chunk;
    while let Some(end) = newline_in(rest) {
        end_line(sink, answers, pending, reply, &rest[..end])?;
        rest = &rest[end + 1..];
    }
    pending.extend_from_slice(rest)?;
    Ok(())
}

/// Answers a last line that has no newline, if there is one.
fn answer_last<K: Sink, A: Answers>(
    sink: &mut K,
    answers: &mut A,
    last: &[u8],
    reply: &mut Vec<u8>,
) -> Result<(), Stop>
    ensures same { OnOk result (A.rules answers.new ≡ A.rules answers.old) }
    ensures next { OnOk result (A.state answers.new ≡
        state_after (A.rules answers.old) (A.state answers.old) (unless_empty last.now)) }
    ensures puts { OnOk result (Puts K.written K.steady K.faults sink.old sink.new
        (concat (replies (A.rules answers.old) (A.state answers.old) (unless_empty last.now)))) }
    ensures stops { IfErr result (Stops K.written K.steady K.faults sink.old sink.new
        (replies (A.rules answers.old) (A.state answers.old) (unless_empty last.now))) }
{
    if last.is_empty() {
        return Ok(());
    }
    answer_line(sink, answers, last, reply)
}

/// Writes the text at the end.
fn close<K: Sink, A: Answers>(sink: &mut K, answers: &mut A, text: &mut Vec<u8>) -> Result<(), Stop>
    ensures puts { OnOk result (Puts K.written K.steady K.faults sink.old sink.new
        ((A.rules answers.old).closing (A.state answers.old))) }
    ensures stops { IfErr result (Stops K.written K.steady K.faults sink.old sink.new
        ((A.rules answers.old).closing (A.state answers.old) ∷ [])) }
{
    text.clear();
    answers.close(text)?;
    deliver(sink, text)?;
    Ok(())
}

/// Answers a last line that has no newline, and writes the text at the end.
pub(crate) fn finish<K: Sink, A: Answers>(
    sink: &mut K,
    answers: &mut A,
    pending: &[u8],
    reply: &mut Vec<u8>,
) -> Result<(), Stop>
    requires { IsOneLine pending.now }
    ensures puts { OnOk result (Puts K.written K.steady K.faults sink.old sink.new
        (transcript (A.rules answers.old) (A.state answers.old) pending.now)) }
    ensures stops { IfErr result (Stops K.written K.steady K.faults sink.old sink.new
        (texts_of (A.rules answers.old) (A.state answers.old) pending.now)) }
{
    answer_last(sink, answers, pending, reply)?;
    close(sink, answers, reply)
}
