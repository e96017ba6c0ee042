// One line in place of all answers, where a number makes the lines.
ghost use Rattle.std.specs.Prelude.{◌≡◌, ◌<◌, ◌^◌, ◌++◌, IfOk, OnOk};
ghost use Rattle.sp_session.specs.Summary.{IsOneReply, summary_line, summary_text};

use itoa::{Buffer, Integer};
use sp_base::{Failed, Sink};
use sp_stream::{Answers, Status, Summary, deliver, summarize};
use sp_words::generated;
use std::alloc::{AllocError, Global};

/// Answers the lines that a number makes, and writes the line that sums the answers up.
pub(crate) fn write_summary<K: Sink, A: Answers>(
    alloc: Global,
    start: u32,
    sink: &mut K,
    answers: &mut A,
) -> Status
    requires { start < 2 ^ 31 }
    ensures { IsOneReply K.written K.steady K.faults
        (summary_line (A.rules answers.old) (A.state answers.old) start) sink.old sink.new result }
{
    match line_of(alloc, start, answers) {
        Ok(line) => match deliver(sink, &line) {
            Ok(()) => Status::Done,
            Err(Failed) => Status::WriteFault,
        },
        Err(AllocError) => Status::OutOfMemory,
    }
}

// The line for the answers to the lines that a number makes.
fn line_of<A: Answers>(alloc: Global, start: u32, answers: &mut A) -> Result<Vec<u8>, AllocError>
    requires { start < 2 ^ 31 }
    ensures { IfOk result (λ line. line.items ≡ summary_line (A.rules answers.old) (A.state answers.old) start) }
{
    let input = generated(alloc, start)?;
    let summary = summarize(alloc, &input, answers)?;
    text_of(alloc, start, &summary)
}

// The text of a sum.
fn text_of(alloc: Global, start: u32, summary: &Summary) -> Result<Vec<u8>, AllocError>
    ensures { IfOk result (λ text. text.items ≡ summary_text start summary.now) }
{
    let mut text = Vec::new(alloc);
    text.extend_from_slice(b"generated ")?;
    put_number(start, &mut text)?;
    text.extend_from_slice(b" lines 200 errors ")?;
    put_number(summary.errors, &mut text)?;
    text.extend_from_slice(b" bytes ")?;
    put_number(summary.bytes, &mut text)?;
    text.extend_from_slice(b" sum ")?;
    put_number(summary.sum, &mut text)?;
    text.push(b'\n')?;
    Ok(text)
}

// Appends the decimal text of a number.
fn put_number<N: Integer>(number: N, out: &mut Vec<u8>) -> Result<(), AllocError>
    ensures { OnOk result (out.new.items ≡ out.old.items ++ N.text number) }
{
    out.extend_from_slice(Buffer::new().format(number).as_bytes())
}
