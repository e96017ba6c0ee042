ghost use Rattle.std.specs.Prelude.{◌++◌, [], ◌∷◌, codes};
ghost use Rattle.sp_stream.specs.Transcript.{Rules};

use crate::{Answers, Status, Summary, deliver, serve, summarize};
use sp_base::{MemSink, MemSource};
use std::alloc::{AllocError, Global};
use std::test::Fail;
use std::vec;

/// Answers a line by itself, and says good-bye at the end.
#[derive(Drop)]
struct Echo;

impl Answers for Echo {
    ghost State = { Unit {0} };

    ghost state = { λ _. tt };

    ghost rules = { λ _. record {
      reply = λ _ line. line ++ 10 ∷ [];
      next = λ state _. state;
      closing = λ _. codes "bye";
    } };

    fn answer(&mut self, line: &[u8], out: &mut Vec<u8>) -> Result<(), AllocError> {
        out.extend_from_slice(line)?;
        out.push(b'\n')?;
        Ok(())
    }

    fn close(&mut self, out: &mut Vec<u8>) -> Result<(), AllocError> {
        out.extend_from_slice(b"bye")
    }
}

/// Answers nothing, and says good-bye at the end.
#[derive(Drop)]
struct Silent;

impl Answers for Silent {
    ghost State = { Unit {0} };

    ghost state = { λ _. tt };

    ghost rules = { λ _. record {
      reply = λ _ _. [];
      next = λ state _. state;
      closing = λ _. codes "bye";
    } };

    fn answer(&mut self, _line: &[u8], _out: &mut Vec<u8>) -> Result<(), AllocError> {
        Ok(())
    }

    fn close(&mut self, out: &mut Vec<u8>) -> Result<(), AllocError> {
        out.extend_from_slice(b"bye")
    }
}

/// Whether a run over so many bytes ends so.
fn ends_at(alloc: Global, size: usize, status: Status, output: &str) -> Result<bool, AllocError> {
    let mut source = MemSource::new(vec![in alloc; b'a'; size]?, 65_536, Vec::new(alloc));
    let mut sink = MemSink::new(alloc, 8, 8, Vec::new(alloc))?;
    let ended = serve(alloc, &mut source, &mut sink, &mut Silent);
    Ok(ended == status && sink.bytes() == output.as_bytes())
}

#[test]
fn an_input_at_the_limit_is_answered_and_one_byte_more_is_not(rt: HostRuntime) -> Result<(), Fail> {
    let alloc = rt.alloc();
    assert!(rt; ends_at(alloc, 16_777_216, Status::Done, "bye")?);
    assert!(rt; ends_at(alloc, 16_777_217, Status::InputTooLong, "")?);
    Ok(())
}

/// Whether a run over this input ends so. Reads take 4 bytes at most, and writes 3.
fn ends(
    alloc: Global,
    input: &str,
    failing_read: u64,
    room: usize,
    status: Status,
    output: &str,
) -> Result<bool, AllocError> {
    let mut bytes = Vec::new(alloc);
    bytes.extend_from_slice(input.as_bytes())?;
    let mut source = MemSource::new(bytes, 4, vec![in alloc; failing_read]?);
    let mut sink = MemSink::new(alloc, room, 3, Vec::new(alloc))?;
    let ended = serve(alloc, &mut source, &mut sink, &mut Echo);
    Ok(ended == status && sink.bytes() == output.as_bytes())
}

#[test]
fn a_run_answers_line_by_line_and_says_how_it_ended(rt: HostRuntime) -> Result<(), Fail> {
    let cases = [
        ("", 0, 90, Status::Done, "bye"),
        ("ab", 0, 90, Status::Done, "ab\nbye"),
        (
            "\nabcdefgh\n\ni",
            0,
            90,
            Status::Done,
            "\nabcdefgh\n\ni\nbye",
        ),
        ("ab\ncdefg\nh", 2, 90, Status::ReadFault, "ab\n"),
        ("ab\ncdefg\nh", 0, 8, Status::WriteFault, "ab\ncdefg"),
    ];
    for (input, failing_read, room, status, output) in cases {
        assert!(rt;
            ends(rt.alloc(), input, failing_read, room, status, output)?,
            "at {input}"
        );
    }
    Ok(())
}

#[test]
fn a_text_is_delivered_whole(rt: HostRuntime) -> Result<(), Fail> {
    let alloc = rt.alloc();
    let mut sink = MemSink::new(alloc, 8, 3, Vec::new(alloc))?;
    assert!(rt; deliver(&mut sink, b"abcdefg").is_ok());
    assert!(rt; deliver(&mut sink, b"hi").is_err());
    assert!(rt; sink.bytes() == "abcdefgh".as_bytes());
    Ok(())
}

#[test]
fn answers_are_summed_up(rt: HostRuntime) -> Result<(), Fail> {
    let summary = summarize(rt.alloc(), b"a\nerror x\nan error \nb", &mut Echo)?;
    // the bytes of a, error x, an error and b with a newline each, and of bye
    assert_eq!(rt;
        summary,
        Summary {
            errors: 1,
            bytes: 25,
            sum: 2086,
        }
    );
    Ok(())
}
