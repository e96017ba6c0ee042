ghost use Rattle.std.specs.Prelude.{◌<◌};

use sp_base::{MemSink, MemSource};
use sp_paint::{Gap, Painter, Plain, Tex};
use sp_session::{Status, run_alone};
use std::alloc::{AllocError, Global};
use std::test::Fail;
use std::vec;

/// A case: the words, the input, the call of the source and of the sink that fails, if any, the status and the output.
#[derive(Drop)]
pub(crate) struct Case {
    pub(crate) words: &'static [&'static str],
    pub(crate) input: &'static str,
    pub(crate) failing_read: u64,
    pub(crate) failing_write: u64,
    pub(crate) status: Status,
    pub(crate) output: &'static str,
}

/// No words, and nothing fails.
pub(crate) fn plain(input: &'static str, status: Status, output: &'static str) -> Case {
    Case {
        words: &[],
        input,
        failing_read: 0,
        failing_write: 0,
        status,
        output,
    }
}

/// How a run with the painters plain, tex and gap ends.
fn run(
    alloc: Global,
    words: &[String],
    source: &mut MemSource,
    sink: &mut MemSink,
) -> Result<Status, AllocError> {
    let mut painters: Vec<Box<dyn Painter>> = Vec::new(alloc);
    painters.push(Box::new(alloc, Plain::new())?)?;
    painters.push(Box::new(alloc, Tex::new())?)?;
    painters.push(Box::new(alloc, Gap::new())?)?;
    Ok(run_alone(alloc, words, source, sink, painters))
}

/// Whether a run ends as the case says.
pub(crate) fn holds(alloc: Global, case: &Case) -> Result<bool, AllocError> {
    let mut words = Vec::new(alloc);
    for word in case.words {
        words.push(String::from_str(alloc, word)?)?;
    }
    let mut input = Vec::new(alloc);
    input.extend_from_slice(case.input.as_bytes())?;
    let mut source = MemSource::new(input, 14, vec![in alloc; case.failing_read]?);
    let mut sink = MemSink::new(alloc, 1_000, 7, vec![in alloc; case.failing_write]?)?;
    let status = run(alloc, &words, &mut source, &mut sink)?;
    Ok(status == case.status && sink.bytes() == case.output.as_bytes())
}

#[test]
fn a_run_says_how_it_ended(rt: HostRuntime) -> Result<(), Fail> {
    let cases = [
        plain("", Status::Done, ""),
        plain("conjugate 3,1", Status::Done, "2,1^2\n"),
        Case {
            words: &["frob"],
            ..plain("conjugate 3,1\n", Status::Usage, "")
        },
        Case {
            failing_read: 2,
            ..plain("conjugate 3,1\nconjugate 2\n", Status::ReadFault, "2,1^2\n")
        },
        Case {
            failing_write: 1,
            ..plain("conjugate 3,1\nconjugate 2\n", Status::WriteFault, "")
        },
    ];
    for case in &cases {
        assert!(rt; holds(rt.alloc(), case)?, "at {}", case.input);
    }
    Ok(())
}

// The second line is cut in its middle by the fault.
#[test]
fn a_line_that_a_fault_cuts_is_not_answered(rt: HostRuntime) -> Result<(), Fail> {
    let case = Case {
        failing_read: 3,
        ..plain(
            "conjugate 3,1\nconjugate 3,1,1,1,1\n",
            Status::ReadFault,
            "2,1^2\n",
        )
    };
    assert!(rt; holds(rt.alloc(), &case)?);
    Ok(())
}

/// Whether the lines are answered so.
pub(crate) fn gives(
    alloc: Global,
    input: &'static str,
    output: &'static str,
) -> Result<bool, AllocError> {
    holds(alloc, &plain(input, Status::Done, output))
}

#[test]
fn orders_are_answered(rt: HostRuntime) -> Result<(), Fail> {
    let cases = [
        ("partitions 0\n", "-\n"),
        ("partitions 3\n", "3\n2,1\n1^3\n"),
        ("regular 2 5\n", "5\n4,1\n3,2\n"),
        ("conjugate (3,1,1)\n", "3,1^2\n"),
        ("dominates 3,1^3 2^3\ndominates 2^3 3,1^3\n", "no\nno\n"),
        ("dominates 4 3,1\ndominates 3,1 4\n", "yes\nno\n"),
        ("dominates 2 1\n", "error 17 degrees differ\n"),
    ];
    for (input, output) in cases {
        assert!(rt; gives(rt.alloc(), input, output)?, "at {input}");
    }
    Ok(())
}

#[test]
fn diagrams_are_answered(rt: HostRuntime) -> Result<(), Fail> {
    let cases = [
        ("diagram 3 3,1\n", "0 1 2\n2\n"),
        ("diagram 3 -\nhooks -\n", "-\n-\n"),
        ("hooks 3,1\n", "4 2 1\n1\n"),
        ("content 3 4\n", "2 1 1\n"),
    ];
    for (input, output) in cases {
        assert!(rt; gives(rt.alloc(), input, output)?, "at {input}");
    }
    Ok(())
}

#[test]
fn cores_and_quotients_are_answered(rt: HostRuntime) -> Result<(), Fail> {
    let cases = [
        ("core 3 4\n", "core 1 weight 1 quotient 1|-|-\n"),
        ("core 2 4\n", "core - weight 2 quotient -|2\n"),
        ("abacus 3 4\n", "oo.\n...\no..\n"),
        ("abacus 3 -\n", "-\n"),
        ("combine 3 1 1|-|-\n", "4\n"),
        ("combine 3 3 -|-|-\n", "error 18 not a core\n"),
        ("combine 3 1 -|-\n", "error 18 not e quotients\n"),
        ("combine 3 1 7|-|-\n", "22\n"),
        ("combine 3 1 10|-|-\n", "error 18 degree past 30\n"),
    ];
    for (input, output) in cases {
        assert!(rt; gives(rt.alloc(), input, output)?, "at {input}");
    }
    Ok(())
}

#[test]
fn good_nodes_are_answered(rt: HostRuntime) -> Result<(), Fail> {
    let cases = [
        (
            "good 2 3,2\n",
            "0 normal (1,3) (2,2) good (2,2) cogood (3,1)\n1 normal - good - cogood (1,4)\n",
        ),
        (
            "good 2 4\n",
            "0 normal - good - cogood (1,5)\n1 normal (1,4) good (1,4) cogood (2,1)\n",
        ),
        ("good 5 -\n", "0 normal - good - cogood (1,1)\n"),
        ("path 3 4\npath 2 -\n", "0 2 1 0\n-\n"),
        ("mullineux 3 4\nmullineux 2 -\n", "2^2\n-\n"),
    ];
    for (input, output) in cases {
        assert!(rt; gives(rt.alloc(), input, output)?, "at {input}");
    }
    Ok(())
}

#[test]
fn vectors_are_answered(rt: HostRuntime) -> Result<(), Fail> {
    let cases = [
        ("induce 2 0 1 3,1\n", "v^-1[3,2] + [3,1^2]\n"),
        ("induce 2 0 1 2^2", "[3,2] + [2^2,1]\n"),
        ("induce 2 0 2 2,1\n", "[3,2] + v[3,1^2] + v^2[2^2,1]\n"),
        ("induce 2 1 1 2^2\n", "0\n"),
        ("induce 2 0 20 1\n", "0\n"),
        (
            "ladder 2 5\n",
            "[5] + [3,2] + 2v[3,1^2] + v^2[2^2,1] + v^2[1^5]\n",
        ),
        ("ladders 2 3,2\nladders 2 -\n", "1:0:1 2:1:2 3:0:2\n-\n"),
    ];
    for (input, output) in cases {
        assert!(rt; gives(rt.alloc(), input, output)?, "at {input}");
    }
    Ok(())
}

#[test]
fn refusals_name_the_first_fault(rt: HostRuntime) -> Result<(), Fail> {
    let cases = [
        ("frob 1\n", "error 1 unknown command\n"),
        ("conjugate\n", "error 2 wrong number of words\n"),
        (
            "partitions x\npartitions 02\n",
            "error 3 not a number\nerror 3 not a number\n",
        ),
        ("conjugate 1,3\n", "error 4 not a partition\n"),
        ("content 65 1\n", "error 5 e not in 2..64\n"),
        ("conjugate 500\n", "error 6 degree past 30\n"),
        ("partitions 31\n", "error 6 degree past 30\n"),
        ("induce 2 0 30 1\n", "error 6 degree past 30\n"),
        ("path 2 2^2\n", "error 7 not e-regular\n"),
        ("induce 2 2 1 1\n", "error 8 residue not below e\n"),
        ("conjugate 1\r\n", "error 13 byte not allowed\n"),
    ];
    for (input, output) in cases {
        assert!(rt; gives(rt.alloc(), input, output)?, "at {input}");
    }
    Ok(())
}

#[test]
fn comments_and_blank_lines_have_no_reply(rt: HostRuntime) -> Result<(), Fail> {
    let input = "# degree 4\n\n \t\nconjugate\t 2\n  # frob\n";
    assert!(rt; gives(rt.alloc(), input, "1^2\n")?);
    Ok(())
}

/// What a run writes of these bytes, and how it ends.
pub(crate) fn run_of(
    alloc: Global,
    input: Vec<u8>,
    piece: usize,
) -> Result<(Status, Vec<u8>), AllocError>
    requires { 0 < piece }
{
    let mut source = MemSource::new(input, piece, Vec::new(alloc));
    let mut sink = MemSink::new(alloc, 1_000, 100, Vec::new(alloc))?;
    let status = run(alloc, &[], &mut source, &mut sink)?;
    let mut written = Vec::new(alloc);
    written.extend_from_slice(sink.bytes())?;
    Ok((status, written))
}

#[test]
fn a_line_past_the_limit_is_refused_alone(rt: HostRuntime) -> Result<(), Fail> {
    let alloc = rt.alloc();
    let mut input = Vec::new(alloc);
    input.resize(4_097, b'a')?;
    input.extend_from_slice(b"\nconjugate 2\n")?;
    let (status, written) = run_of(alloc, input, 1_000)?;
    assert!(rt; status == Status::Done);
    assert_eq!(rt;
        written.as_slice(),
        b"error 12 line past 4096 bytes\n1^2\n".as_slice()
    );
    Ok(())
}

#[test]
fn a_full_sink_has_the_first_bytes(rt: HostRuntime) -> Result<(), Fail> {
    let alloc = rt.alloc();
    let mut input = Vec::new(alloc);
    input.extend_from_slice(b"induce 2 0 1 3,1\ninduce 2 0 1 2^2\n")?;
    let mut source = MemSource::new(input, 14, Vec::new(alloc));
    let mut sink = MemSink::new(alloc, 24, 1, Vec::new(alloc))?;
    let status = run(alloc, &[], &mut source, &mut sink)?;
    assert!(rt; status == Status::WriteFault);
    assert_eq!(rt; sink.bytes(), b"v^-1[3,2] + [3,1^2]\n[3,2".as_slice());
    Ok(())
}

#[test]
fn an_input_past_the_limit_leaves_the_whole_lines(rt: HostRuntime) -> Result<(), Fail> {
    let alloc = rt.alloc();
    let mut input = Vec::new(alloc);
    input.extend_from_slice(b"conjugate 3,1\nconjugate 2")?;
    input.resize(16_777_217, b' ')?;
    let (status, written) = run_of(alloc, input, 1_000_000)?;
    assert!(rt; status == Status::InputTooLong);
    assert_eq!(rt; written.as_slice(), b"2,1^2\n".as_slice());
    Ok(())
}

#[test]
fn an_input_of_newlines_past_the_limit_has_no_reply(rt: HostRuntime) -> Result<(), Fail> {
    let alloc = rt.alloc();
    let mut input = Vec::new(alloc);
    input.resize(16_777_217, b'\n')?;
    let (status, written) = run_of(alloc, input, 1_000_000)?;
    assert!(rt; status == Status::InputTooLong && written.is_empty());
    Ok(())
}

#[test]
fn ladder_vectors_are_refused_past_the_limit(rt: HostRuntime) -> Result<(), Fail> {
    let within = "[5] + [3,2] + 2v[3,1^2] + v^2[2^2,1] + v^2[1^5]\n";
    let cases: [(&'static [&'static str], &'static str); 4] = [
        (&["--limit", "1"], "error 9 too large\n"),
        (&["--limit=1"], "error 9 too large\n"),
        (&["--limit", "2"], within),
        (&["--limit=170141183460469231731687303715884105727"], within),
    ];
    for (words, output) in cases {
        let case = Case {
            words,
            ..plain("ladder 2 5\n", Status::Done, output)
        };
        assert!(rt; holds(rt.alloc(), &case)?, "at {output}");
    }
    Ok(())
}

#[test]
fn other_words_are_refused(rt: HostRuntime) -> Result<(), Fail> {
    let cases: [&'static [&'static str]; 8] = [
        &["--generate", "2147483648"],
        &["--generate", "007"],
        &["--generate", "0", "--generate=0"],
        &["--limit", "007"],
        &["--"],
        &["frob"],
        &["--help"],
        &["--workers", "2"],
    ];
    for words in cases {
        let case = Case {
            words,
            ..plain("ladder 2 5\n", Status::Usage, "")
        };
        assert!(rt; holds(rt.alloc(), &case)?);
    }
    Ok(())
}

#[test]
fn rows_are_answered(rt: HostRuntime) -> Result<(), Fail> {
    let cases: [(&'static [&'static str], &'static str, &'static str); 12] = [
        (&[], "row 2 5\n", "[5] + v[3,1^2] + v^2[1^5]\n"),
        (&["--limit", "2"], "row 2 5\n", "error 9 too large\n"),
        (&["--limit=3"], "row 2 5\n", "[5] + v[3,1^2] + v^2[1^5]\n"),
        (
            &["--limit", "6"],
            "row 2 7\n",
            "[7] + v[5,1^2] + v^2[3,1^4] + v^3[1^7]\n",
        ),
        (&["--limit", "5"], "row 2 7\n", "error 9 too large\n"),
        // an earlier row that it needs is past the limit, though its own weight is 3
        (&["--limit", "3"], "row 3 9,1\n", "error 9 too large\n"),
        // a partial ladder vector is past the limit
        (
            &["--limit", "1"],
            "row 4 5,2^2,1^2\n",
            "error 9 too large\n",
        ),
        (&[], "row 2 2^2\n", "error 7 not e-regular\n"),
        (&[], "row 65 1\n", "error 5 e not in 2..64\n"),
        (&[], "row 2 31\n", "error 6 degree past 30\n"),
        (&[], "row 30 30\n", "[30] + v[29,1]\n"),
        (
            &[],
            "row 2\nrow x 5\nrow 02 5\n",
            "error 2 wrong number of words\nerror 3 not a number\nerror 3 not a number\n",
        ),
    ];
    for (words, input, output) in cases {
        let case = Case {
            words,
            ..plain(input, Status::Done, output)
        };
        assert!(rt; holds(rt.alloc(), &case)?, "at {input}");
    }
    Ok(())
}

// The last two numbers are those of an independent program.
#[test]
fn made_lines_are_summed_up(rt: HostRuntime) -> Result<(), Fail> {
    let cases: [(&'static [&'static str], &'static str); 4] = [
        (
            &["--generate", "0"],
            "generated 0 lines 200 errors 0 bytes 196112 sum 9901765\n",
        ),
        (
            &["--generate=1"],
            "generated 1 lines 200 errors 0 bytes 166734 sum 8624282\n",
        ),
        (
            &["--generate", "20261201"],
            "generated 20261201 lines 200 errors 0 bytes 174388 sum 9386811\n",
        ),
        (
            &["--generate=2147483647"],
            "generated 2147483647 lines 200 errors 0 bytes 196078 sum 9829875\n",
        ),
    ];
    for (words, output) in cases {
        // Nothing is read: the first read would fail.
        let case = Case {
            words,
            failing_read: 1,
            ..plain("conjugate 2\n", Status::Done, output)
        };
        assert!(rt; holds(rt.alloc(), &case)?, "at {output}");
    }
    Ok(())
}

#[test]
fn a_summary_stops_where_the_sink_fails(rt: HostRuntime) -> Result<(), Fail> {
    let case = Case {
        words: &["--generate", "0"],
        failing_write: 2,
        ..plain("", Status::WriteFault, "generat")
    };
    assert!(rt; holds(rt.alloc(), &case)?);
    Ok(())
}
