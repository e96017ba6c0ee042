// Answers the lines of standard input, with rows by many workers.
#![tactic(auto)]

ghost use Rattle.std.specs.Prelude.{◌≡◌, true, map, string_bytes, IfOk, OnErr};
ghost use Rattle.sp_session.specs.Run.{IsRun};
ghost use Rattle.sp_session.specs.State.{standard_painters};

use sp_base::{Sink, Source, StdSink, StdSource};
use sp_paint::{Gap, Painter, Plain, Tex};
use sp_pool::Still;
use sp_program::{end, status_without_words, words};
use sp_session::Status;
use std::alloc::{AllocError, Global};
use std::process::ExitCode;
use std::sync::Wait;
use std::thread::Threads;

/// How a run with the painters plain, tex and gap ends. Without memory for these nothing is read or written.
fn run<R: Threads + Wait + Sync, S: Source, K: Sink>(
    rt: &R,
    alloc: Global,
    words: &[String],
    source: &mut S,
    sink: &mut K,
) -> Result<Status, AllocError>
    ensures run { IfOk result (λ status. IsRun S.left S.faults S.steady K.written K.faults K.steady
        true (map string_bytes words.now) standard_painters source.old source.new sink.old sink.new status) }
    ensures kept { OnErr result ((source.new ≡ source.old) × (sink.new ≡ sink.old)) }
{
    let mut painters: Vec<Box<dyn Painter>> = Vec::new(alloc);
    painters.push(Box::new(alloc, Plain::new())?)?;
    painters.push(Box::new(alloc, Tex::new())?)?;
    painters.push(Box::new(alloc, Gap::new())?)?;
    Ok(sp_session::run(rt, alloc, words, source, sink, painters, &Still))
}

fn main(rt: HostRuntime) -> ExitCode {
    let alloc = rt.alloc();
    let status = match words(&rt, alloc) {
        Ok(words) => {
            let mut source = StdSource::new(rt.stdin());
            let mut sink = StdSink::new(rt.stdout());
            match run(&rt, alloc, &words, &mut source, &mut sink) {
                Ok(status) => status,
                Err(AllocError) => Status::OutOfMemory,
            }
        }
        Err(error) => status_without_words(&error),
    };
    end(&rt, status)
}
