//! What the programs share: the words that they are given, and how they end.
#![tactic(auto)]

ghost use Rattle.std.specs.Prelude.{◌≡◌, ◌≢◌};
ghost use Rattle.std.specs.Process.{exit_status};
ghost use Rattle.sp_stream.specs.Ending.{code_of};

use sp_stream::Status;
use std::alloc::Global;
use std::process::ExitCode;
use std::rt::Env;
use std::{env, io};

/// The words after the program's name.
///
/// # Errors
///
/// `InvalidData` where a word isn't UTF-8.
pub fn words<R: Env + AllocGlobal>(rt: &R, alloc: Global) -> io::Result<Vec<String>> {
    let mut words = Vec::new(alloc);
    for word in env::args(rt)?.skip(1) {
        words.push(word)?;
    }
    Ok(words)
}

/// How a run ends whose words could not be read. A word that isn't UTF-8 is no word of a program's.
pub fn status_without_words(error: &io::Error) -> Status
    ensures { result ≢ Status.Done }
{
    match error.kind() {
        io::ErrorKind::InvalidData => Status::Usage,
        _ => Status::OutOfMemory,
    }
}

/// Says on standard error how a run ended, where it isn't done, and gives the exit code.
pub fn end<R: Eprint>(rt: &R, status: Status) -> ExitCode
    ensures { exit_status result ≡ code_of status }
{
    if status != Status::Done {
        // Nothing is left to tell where this fails too.
        let _ = eprintln!(rt; "specht: {}", status.words());
    }
    ExitCode::from(status.code())
}
