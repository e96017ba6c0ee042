// Certificates, written and checked.
use crate::sessions::{Case, gives, holds, plain, run_of};
use sp_session::Status;
use std::alloc::{AllocError, Global};
use std::test::Fail;

/// The certificate of degree 5 at e = 2, in version 1, in lines.
const FIRST: &str =
    "certificate 1\ne 2\ndegree 5\ncolumn 3,2\nentry 3,2 1\nentry 3,1^2 v\nentry 2^2,1 v^2\n\
                     column 4,1\nentry 4,1 1\nentry 2,1^3 v\ncolumn 5\nshare 3,2 1\nentry 5 1\nentry 3,1^2 v\nentry 1^5 v^2\nend";

/// The same in version 2.
const SECOND: &str =
    "certificate 2\ne 2\ndegree 5\nblock 3 2\ncolumn 3,2\nentry 3,2 1\nentry 3,1^2 v\n\
                      entry 2^2,1 v^2\ncolumn 5\nshare 3,2 1\nentry 5 1\nentry 3,1^2 v\nentry 1^5 v^2\nblock 2 3\n\
                      column 4,1\nentry 4,1 1\nentry 2,1^3 v\nend";

/// The line `check` and the lines of a text, of which the one with this number, from 1, is another.
fn with_line(alloc: Global, text: &str, number: u64, line: &str) -> Result<Vec<u8>, AllocError> {
    let mut input = Vec::new(alloc);
    input.extend_from_slice(b"check")?;
    let mut next = 1u64;
    for old in text.as_bytes().split(|byte| *byte == b'\n') {
        input.extend_from_slice(b"\n")?;
        if next == number {
            input.extend_from_slice(line.as_bytes())?;
        } else {
            input.extend_from_slice(old)?;
        }
        next = next.saturating_add(1);
    }
    Ok(input)
}

/// The line `check` and the first lines of a text, each with its newline.
fn cut(alloc: Global, text: &str, lines: u64) -> Result<Vec<u8>, AllocError> {
    let mut input = Vec::new(alloc);
    input.extend_from_slice(b"check\n")?;
    let mut next = 0u64;
    for line in text.as_bytes().split(|byte| *byte == b'\n') {
        if next < lines {
            input.extend_from_slice(line)?;
            input.extend_from_slice(b"\n")?;
        }
        next = next.saturating_add(1);
    }
    Ok(input)
}

/// Whether an input is answered so.
fn answers(alloc: Global, input: Vec<u8>, output: &str) -> Result<bool, AllocError> {
    let (status, written) = run_of(alloc, input, 100)?;
    Ok(status == Status::Done && written.as_slice() == output.as_bytes())
}

#[test]
fn certificates_are_written(rt: HostRuntime) -> Result<(), Fail> {
    let alloc = rt.alloc();
    let output =
        "certificate 2\ne 2\ndegree 5\nblock 3 2\ncolumn 3,2\nentry 3,2 1\nentry 3,1^2 v\nentry 2^2,1 v^2\n\
                  column 5\nshare 3,2 1\nentry 5 1\nentry 3,1^2 v\nentry 1^5 v^2\nblock 2 3\ncolumn 4,1\nentry 4,1 1\n\
                  entry 2,1^3 v\nend\n";
    assert!(rt; gives(alloc, "certificate 2 5\n", output)?);
    let degree_none = "certificate 2\ne 2\ndegree 0\nblock 0 0\ncolumn -\nentry - 1\nend\n";
    assert!(rt; gives(alloc, "certificate 2 0\n", degree_none)?);
    let limits: [(&'static [&'static str], &'static str); 2] = [
        (&["--limit", "2"], "error 9 too large at column 5\n"),
        (&["--limit", "3"], output),
    ];
    for (words, output) in limits {
        let case = Case {
            words,
            ..plain("certificate 2 5\n", Status::Done, output)
        };
        assert!(rt; holds(alloc, &case)?, "at {output}");
    }
    Ok(())
}

#[test]
fn certificates_are_accepted(rt: HostRuntime) -> Result<(), Fail> {
    let alloc = rt.alloc();
    for text in [FIRST, SECOND] {
        let input = with_line(alloc, text, 0, "")?;
        assert!(rt; answers(alloc, input, "accepted 3 columns\n")?, "at {text}");
    }
    Ok(())
}

// Each changed line of the first certificate, and what is answered.
#[test]
fn a_changed_line_is_named(rt: HostRuntime) -> Result<(), Fail> {
    let alloc = rt.alloc();
    let cases: [(u64, &str, &str); 22] = [
        (2, "e 3", "error 15 certificate malformed at line 4\n"),
        (3, "degree 21", "error 15 certificate malformed at line 3\n"),
        (
            5,
            "entry 3,2 +1",
            "error 15 certificate malformed at line 5\n",
        ),
        (
            5,
            "entry  3,2 1",
            "error 15 certificate malformed at line 5\n",
        ),
        (
            5,
            "entry 3,2 1 ",
            "error 15 certificate malformed at line 5\n",
        ),
        (
            5,
            "entry (3,2) 1",
            "error 15 certificate malformed at line 5\n",
        ),
        (5, "", "error 15 certificate malformed at line 5\n"),
        (8, "column 5", "error 15 certificate malformed at line 8\n"),
        (
            12,
            "share 5 1",
            "error 15 certificate malformed at line 12\n",
        ),
        (
            12,
            "share 3,2 0",
            "error 15 certificate malformed at line 12\n",
        ),
        (
            12,
            "share 3,2 2",
            "error 16 certificate wrong at column 5\n",
        ),
        (
            12,
            "share 3,2 v",
            "error 16 certificate wrong at column 5\n",
        ),
        (13, "entry 5 2", "error 16 certificate wrong at column 5\n"),
        (
            15,
            "entry 1^5 v",
            "error 16 certificate wrong at column 5\n",
        ),
        (
            6,
            "entry 3,1^2 2v",
            "error 16 certificate wrong at column 3,2\n",
        ),
        (
            1,
            "certificate 3",
            "error 15 certificate malformed at line 1\n",
        ),
        (
            1,
            "certificate 2",
            "error 15 certificate malformed at line 4\n",
        ),
        (
            1,
            "# certificate",
            "error 15 certificate malformed at line 1\n",
        ),
        (2, "check", "error 15 certificate malformed at line 2\n"),
        (2, "e 65", "error 15 certificate malformed at line 2\n"),
        (16, "end ", "error 15 certificate malformed at line 16\n"),
        (16, " end", "error 15 certificate malformed at line 16\n"),
    ];
    for (number, line, output) in cases {
        let input = with_line(alloc, FIRST, number, line)?;
        assert!(rt; answers(alloc, input, output)?, "at {line}");
    }
    Ok(())
}

#[test]
fn a_changed_line_of_version_2_is_named(rt: HostRuntime) -> Result<(), Fail> {
    let alloc = rt.alloc();
    let cases: [(u64, &str, &str); 5] = [
        (
            14,
            "block 3 2",
            "error 15 certificate malformed at line 14\n",
        ),
        // a partition of another content
        (
            12,
            "entry 4,1 v",
            "error 15 certificate malformed at line 12\n",
        ),
        (3, "degree 31", "error 15 certificate malformed at line 3\n"),
        (3, "degree 30", "error 15 certificate malformed at line 4\n"),
        (
            10,
            "share 3,2 v^-1+v",
            "error 16 certificate wrong at column 5\n",
        ),
    ];
    for (number, line, output) in cases {
        let input = with_line(alloc, SECOND, number, line)?;
        assert!(rt; answers(alloc, input, output)?, "at {line}");
    }
    Ok(())
}

#[test]
fn a_certificate_that_is_cut_awaits_its_next_line(rt: HostRuntime) -> Result<(), Fail> {
    let alloc = rt.alloc();
    for lines in 0..16u64 {
        let output = format!(in alloc; "error 15 certificate malformed at line {}\n", lines + 1)?;
        let input = cut(alloc, FIRST, lines)?;
        assert!(rt; answers(alloc, input, output.as_str())?, "at {lines}");
    }
    let cases = [
        (
            "check\ncertificate 1\ne 2\ndegree 5\ncolumn 3,2\nentry 3,2 1\nentry 3,1^2 v\nentry 2^2,1 v",
            "error 15 certificate malformed at line 8\n",
        ),
        ("check", "error 15 certificate malformed at line 1\n"),
        (
            "check\n\ncertificate 1\n",
            "error 15 certificate malformed at line 1\n",
        ),
        // the answer stands before the trailers
        (
            "painter gap\ncrystal 2 0\ncheck\ncertificate 1\n",
            "painter gap\nm1 := [[1]];\nerror 15 certificate malformed at line 2\n# matrices 1\n",
        ),
    ];
    for (input, output) in cases {
        assert!(rt; gives(alloc, input, output)?, "at {input}");
    }
    Ok(())
}

#[test]
fn the_line_behind_a_certificate_is_a_command_again(rt: HostRuntime) -> Result<(), Fail> {
    let cases = [
        (
            "check\nend\nconjugate 2\n",
            "error 15 certificate malformed at line 1\n1^2\n",
        ),
        (
            " \tcheck \ncertificate 2\nfrob\nconjugate 3\nend \n end\nend\nconjugate 2\nend\n",
            "error 15 certificate malformed at line 2\n1^2\nerror 1 unknown command\n",
        ),
        (
            "check x\nend\n",
            "error 2 wrong number of words\nerror 1 unknown command\n",
        ),
        (
            "check\n\x01\nend\ncheck\nend\n",
            "error 15 certificate malformed at line 1\nerror 15 certificate malformed at line 1\n",
        ),
        (
            "check\ncertificate 1\ne 2\ndegree 1\ncolumn 1\nentry 1 1\nend\nconjugate 2\n",
            "accepted 1 columns\n1^2\n",
        ),
    ];
    for (input, output) in cases {
        assert!(rt; gives(rt.alloc(), input, output)?, "at {input}");
    }
    Ok(())
}

#[test]
fn a_certificate_is_checked_under_the_limit(rt: HostRuntime) -> Result<(), Fail> {
    let input =
        "check\ncertificate 1\ne 2\ndegree 5\ncolumn 3,2\nentry 3,2 1\nentry 3,1^2 v\nentry 2^2,1 v^2\n\
                 column 4,1\nentry 4,1 1\nentry 2,1^3 v\ncolumn 5\nshare 3,2 1\nentry 5 1\nentry 3,1^2 v\n\
                 entry 1^5 v^2\nend\n";
    let cases: [(&'static [&'static str], &'static str); 3] = [
        (&["--limit", "3"], "accepted 3 columns\n"),
        (&["--limit", "2"], "error 9 too large at column 5\n"),
        (&["--limit", "1"], "error 9 too large at column 5\n"),
    ];
    for (words, output) in cases {
        let case = Case {
            words,
            ..plain(input, Status::Done, output)
        };
        assert!(rt; holds(rt.alloc(), &case)?, "at {output}");
    }
    Ok(())
}

// A line of a certificate has no limit, and what is read of it is not answered as a command.
#[test]
fn a_long_line_of_a_certificate_is_malformed(rt: HostRuntime) -> Result<(), Fail> {
    let alloc = rt.alloc();
    let mut input = Vec::new(alloc);
    input.extend_from_slice(b"check\ncertificate 2\ne ")?;
    input.resize(100_000, b'2')?;
    input.extend_from_slice(b"\nend\nconjugate 2\n")?;
    let output = "error 15 certificate malformed at line 2\n1^2\n";
    assert!(rt; answers(alloc, input, output)?);
    Ok(())
}

// The replies to whole commands are written, and `check` is whole where the newline of its `end` was read.
#[test]
fn a_certificate_that_a_fault_cuts_is_not_answered(rt: HostRuntime) -> Result<(), Fail> {
    let cases = [
        Case {
            failing_read: 3,
            ..plain(
                "conjugate 2\ncheck\nconjugate 3\nend",
                Status::ReadFault,
                "1^2\n",
            )
        },
        Case {
            failing_read: 4,
            ..plain(
                "conjugate 2\ncheck\nconjugate 3\nend\nconj",
                Status::ReadFault,
                "1^2\nerror 15 certificate malformed at line 1\n",
            )
        },
    ];
    for case in &cases {
        assert!(rt; holds(rt.alloc(), case)?, "at {}", case.input);
    }
    Ok(())
}
