// The answers to an input that is at hand, summed up and not written.
ghost use Rattle.std.specs.Prelude.{◌≡◌, ◌+◌, ◌*◌, ◌≤◌, ◌<◌, ◌^◌, ◌++◌, [], ◌∷◌, List, ℕ, length, IfOk, OnOk};
ghost use Rattle.std.specs.List.{sum};
ghost use Rattle.sp_stream.specs.Lines.{unless_empty};
ghost use Rattle.sp_stream.specs.Summary.{IsSumOf, IsWith, IsWithin, summary_of};
ghost use Rattle.sp_stream.specs.Transcript.{replies, state_after};

use crate::Answers;
use crate::lines::newline_in;
use crate::reading::INPUT_LIMIT;
use std::alloc::{AllocError, Global};

/// What the answers to an input sum up to.
#[derive(Clone, Copy, Debug, PartialEq, Eq)]
pub struct Summary {
    /// How many replies to lines begin with `error `.
    pub errors: u64,
    /// How many bytes all that answers the input has.
    pub bytes: u128,
    /// The sum of their values.
    pub sum: u128,
}

/// What the answers to an input sum up to: the replies to its lines, and the text at the end. None of them is kept.
///
/// # Errors
///
/// Want of memory ends the session.
pub fn summarize<A: Answers>(
    alloc: Global,
    input: &[u8],
    answers: &mut A,
) -> Result<Summary, AllocError>
    requires { length input.now ≤ INPUT_LIMIT }
    ensures { IfOk result (λ summary. summary ≡ summary_of (A.rules answers.old) (A.state answers.old) input.now) }
{
    let mut text = Vec::new(alloc);
    let mut summary = Summary {
        errors: 0,
        bytes: 0,
        sum: 0,
    };
    let mut rest = input;
    while let Some(end) = newline_in(rest) {
        summary = with_reply(answers, &rest[..end], &mut text, summary)?;
        rest = &rest[end + 1..];
    }
    let summary = with_last(answers, rest, &mut text, summary)?;
    text.clear();
    answers.close(&mut text)?;
    Ok(with_text(summary, &text, false))
}

// A line is answered, and its reply counted.
fn with_reply<A: Answers>(
    answers: &mut A,
    line: &[u8],
    text: &mut Vec<u8>,
    summary: Summary,
) -> Result<Summary, AllocError>
    requires { IsWithin INPUT_LIMIT summary }
    ensures same { OnOk result (A.rules answers.new ≡ A.rules answers.old) }
    ensures next { OnOk result (A.state answers.new ≡ (A.rules answers.old).next (A.state answers.old) line.now) }
    ensures sums { IfOk result (λ more. (texts : List (List ℕ)) → IsSumOf texts summary →
        IsSumOf (texts ++ (A.rules answers.old).reply (A.state answers.old) line.now ∷ []) more) }
    ensures within { IfOk result (λ more. (count : ℕ) → IsWithin count summary → IsWithin (count + 1) more) }
{
    text.clear();
    answers.answer(line, text)?;
    Ok(with_text(summary, text, true))
}

// A last line that no newline ends is answered, if there is one, and its reply counted.
fn with_last<A: Answers>(
    answers: &mut A,
    last: &[u8],
    text: &mut Vec<u8>,
    summary: Summary,
) -> Result<Summary, AllocError>
    requires { IsWithin INPUT_LIMIT summary }
    ensures same { OnOk result (A.rules answers.new ≡ A.rules answers.old) }
    ensures next { OnOk result (A.state answers.new ≡
        state_after (A.rules answers.old) (A.state answers.old) (unless_empty last.now)) }
    ensures sums { IfOk result (λ more. (texts : List (List ℕ)) → IsSumOf texts summary →
        IsSumOf (texts ++ replies (A.rules answers.old) (A.state answers.old) (unless_empty last.now)) more) }
    ensures within { IfOk result (λ more. (count : ℕ) → IsWithin count summary → IsWithin (count + 1) more) }
{
    if last.is_empty() {
        return Ok(summary);
    }
    with_reply(answers, last, text, summary)
}

// With one text more: a reply, or the text at the end.
fn with_text(summary: Summary, text: &[u8], is_reply: bool) -> Summary
    requires { IsWithin (INPUT_LIMIT + 1) summary }
    ensures is { IsWith is_reply text.now summary result }
    ensures within { (count : ℕ) → IsWithin count summary → IsWithin (count + 1) result }
{
    Summary {
        errors: summary.errors + u64::from(is_reply && text.starts_with(b"error ")),
        bytes: summary.bytes + text.len() as u128,
        sum: summary.sum + value_of(text),
    }
}

// The sum of the values of bytes.
fn value_of(text: &[u8]) -> u128
    ensures value { result ≡ sum text.now }
    ensures most { result ≤ 255 * length text.now }
{
    let mut value = 0;
    for byte in text {
        value += u128::from(*byte);
    }
    value
}
