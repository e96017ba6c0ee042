//! Certificates that are read line by line, and tested.

use sp_cert::{CertFault, Certificate, Progress, Reader, check};
use std::alloc::Global;
use std::test::Fail;

const FIRST: &[u8] =
    b"certificate 1\ne 2\ndegree 5\ncolumn 3,2\nentry 3,2 1\nentry 3,1^2 v\nentry 2^2,1 v^2\n\
    column 4,1\nentry 4,1 1\nentry 2,1^3 v\ncolumn 5\nshare 3,2 1\nentry 5 1\nentry 3,1^2 v\nentry 1^5 v^2\nend";

const SECOND: &[u8] =
    b"certificate 2\ne 2\ndegree 5\nblock 3 2\ncolumn 3,2\nentry 3,2 1\nentry 3,1^2 v\n\
    entry 2^2,1 v^2\ncolumn 5\nshare 3,2 1\nentry 5 1\nentry 3,1^2 v\nentry 1^5 v^2\nblock 2 3\ncolumn 4,1\n\
    entry 4,1 1\nentry 2,1^3 v\nend";

/// What is said of a certificate that was read.
fn verdict(alloc: Global, certificate: &Certificate) -> Result<Vec<u8>, Fail> {
    let mut said = Vec::new(alloc);
    let answer = check(alloc, certificate, 1_000_000);
    match &answer {
        Ok(entries) => {
            let count = entries.len();
            said.extend_from_slice(format!(in alloc; "accepted {count} columns")?.as_bytes())?;
        }
        Err(CertFault::Wrong { column }) => {
            said.extend_from_slice(b"wrong at ")?;
            column.print(alloc, &mut said)?;
        }
        Err(CertFault::TooLarge { column }) => {
            said.extend_from_slice(b"too large at ")?;
            column.print(alloc, &mut said)?;
        }
        Err(CertFault::Malformed { .. }) => said.extend_from_slice(b"malformed")?,
        Err(CertFault::Memory) => said.extend_from_slice(b"memory")?,
    }
    Ok(said)
}

/// What is said of a line.
enum Outcome {
    More(Reader),
    Last(Vec<u8>),
}

fn said(alloc: Global, reader: Reader, line: &[u8]) -> Result<Outcome, Fail> {
    match reader.line(line) {
        Ok(Progress::More(next)) => Ok(Outcome::More(next)),
        Ok(Progress::Whole(certificate)) => Ok(Outcome::Last(verdict(alloc, &certificate)?)),
        Err(CertFault::Malformed { line }) => {
            let text = format!(in alloc; "malformed at line {line}")?;
            Ok(Outcome::Last(Vec::from_slice(alloc, text.as_bytes())?))
        }
        Err(_) => Ok(Outcome::Last(Vec::from_slice(alloc, b"memory")?)),
    }
}

/// What is said of these lines, up to the first that isn't allowed, or to the end, or of the line that is awaited
/// behind them.
fn reply(alloc: Global, text: &[u8]) -> Result<Vec<u8>, Fail> {
    let mut reader = Some(Reader::new(alloc)?);
    for line in text.split(|byte| *byte == b'\n') {
        if let Some(current) = reader.take() {
            match said(alloc, current, line)? {
                Outcome::More(next) => reader = Some(next),
                Outcome::Last(text) => return Ok(text),
            }
        }
    }
    let awaited = match &reader {
        Some(reader) => reader.next_line(),
        None => 0,
    };
    let text = format!(in alloc; "awaits line {awaited}")?;
    Ok(Vec::from_slice(alloc, text.as_bytes())?)
}

/// The text with another line at a place from 1.
fn with_line(alloc: Global, text: &[u8], place: usize, other: &[u8]) -> Result<Vec<u8>, Fail> {
    let mut out = Vec::new(alloc);
    for (index, line) in text.split(|byte| *byte == b'\n').enumerate() {
        if index > 0 {
            out.push(b'\n')?;
        }
        if place == index.saturating_add(1) {
            out.extend_from_slice(other)?;
        } else {
            out.extend_from_slice(line)?;
        }
    }
    Ok(out)
}

/// What is said of the text with another line at a place from 1.
fn reply_with(alloc: Global, text: &[u8], place: usize, other: &[u8]) -> Result<Vec<u8>, Fail> {
    reply(alloc, &with_line(alloc, text, place, other)?)
}

#[test]
fn both_versions_are_read(rt: HostRuntime) -> Result<(), Fail> {
    let alloc = rt.alloc();
    assert_eq!(rt;
        reply(alloc, FIRST)?.as_slice(),
        b"accepted 3 columns".as_slice()
    );
    assert_eq!(rt;
        reply(alloc, SECOND)?.as_slice(),
        b"accepted 3 columns".as_slice()
    );
    Ok(())
}

#[test]
fn damaged_certificates_of_version_one(rt: HostRuntime) -> Result<(), Fail> {
    let alloc = rt.alloc();
    let damages = [
        (2, b"e 3".as_slice(), b"malformed at line 4".as_slice()),
        (
            3,
            b"degree 21".as_slice(),
            b"malformed at line 3".as_slice(),
        ),
        (
            5,
            b"entry 3,1^2 v\nentry 3,2 1".as_slice(),
            b"malformed at line 6".as_slice(),
        ),
        (
            12,
            b"share 5 1".as_slice(),
            b"malformed at line 12".as_slice(),
        ),
        (12, b"share 3,2 2".as_slice(), b"wrong at 5".as_slice()),
        (12, b"share 3,2 v".as_slice(), b"wrong at 5".as_slice()),
        (
            11,
            b"column 5\nentry 5 1".as_slice(),
            b"malformed at line 13".as_slice(),
        ),
        (13, b"entry 5 2".as_slice(), b"wrong at 5".as_slice()),
        // a space too many, or another text of the same
        (
            1,
            b"certificate  1".as_slice(),
            b"malformed at line 1".as_slice(),
        ),
        (2, b"e 02".as_slice(), b"malformed at line 2".as_slice()),
        (
            5,
            b"entry  3,2 1".as_slice(),
            b"malformed at line 5".as_slice(),
        ),
        (
            5,
            b"entry 3,2 1 ".as_slice(),
            b"malformed at line 5".as_slice(),
        ),
        (
            5,
            b"entry (3,2) 1".as_slice(),
            b"malformed at line 5".as_slice(),
        ),
        (
            5,
            b"entry 3,2 +1".as_slice(),
            b"malformed at line 5".as_slice(),
        ),
        (
            5,
            b"entry 3,2 0".as_slice(),
            b"malformed at line 5".as_slice(),
        ),
        (5, b"".as_slice(), b"malformed at line 5".as_slice()),
        (8, b"column 5".as_slice(), b"malformed at line 8".as_slice()),
        (11, b"end".as_slice(), b"malformed at line 11".as_slice()),
        (16, b"end ".as_slice(), b"malformed at line 16".as_slice()),
    ];
    for (place, other, wanted) in damages {
        assert_eq!(rt; reply_with(alloc, FIRST, place, other)?.as_slice(), wanted);
    }
    Ok(())
}

#[test]
fn damaged_certificates_of_version_two(rt: HostRuntime) -> Result<(), Fail> {
    let alloc = rt.alloc();
    let damages = [
        (
            14,
            b"block 3 2".as_slice(),
            b"malformed at line 14".as_slice(),
        ),
        (
            11,
            b"entry 5 1\nentry 4,1 v".as_slice(),
            b"malformed at line 12".as_slice(),
        ),
        (
            3,
            b"degree 31".as_slice(),
            b"malformed at line 3".as_slice(),
        ),
        (
            4,
            b"column 3,2".as_slice(),
            b"malformed at line 4".as_slice(),
        ),
    ];
    for (place, other, wanted) in damages {
        assert_eq!(rt; reply_with(alloc, SECOND, place, other)?.as_slice(), wanted);
    }
    Ok(())
}

#[test]
fn texts_that_stop(rt: HostRuntime) -> Result<(), Fail> {
    let alloc = rt.alloc();
    let texts = [
        (b"certificate 1".as_slice(), b"awaits line 2".as_slice()),
        (
            b"certificate 2\ne 2\ndegree 30".as_slice(),
            b"awaits line 4".as_slice(),
        ),
        (
            b"certificate 1\ne 64\ndegree 0\ncolumn -\nentry - 1".as_slice(),
            b"awaits line 6".as_slice(),
        ),
        (
            b"certificate 1\ne 64\ndegree 0\ncolumn -\nentry - 1\nend".as_slice(),
            b"accepted 1 columns".as_slice(),
        ),
    ];
    for (text, wanted) in texts {
        assert_eq!(rt; reply(alloc, text)?.as_slice(), wanted);
    }
    Ok(())
}

#[test]
fn ten_thousand_columns_of_one_partition(rt: HostRuntime) -> Result<(), Fail> {
    let alloc = rt.alloc();
    let mut text = Vec::new(alloc);
    text.extend_from_slice(b"certificate 1\ne 2\ndegree 1")?;
    for _ in 0..10_000 {
        text.extend_from_slice(b"\ncolumn 1")?;
    }
    assert_eq!(rt;
        reply(alloc, &text)?.as_slice(),
        b"malformed at line 5".as_slice()
    );
    Ok(())
}
