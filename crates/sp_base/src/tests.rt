use crate::{Failed, MemSink, MemSource, Sink, Source, StdSink, StdSource, SureSource, put_number};
use std::alloc::Global;
use std::io::{Error, ErrorKind, Read, Write};
use std::test::Fail;
use std::{io, vec};

/// A reader that gives one byte and then refuses.
#[derive(Drop)]
struct OneByte {
    given: bool,
}

impl Read for OneByte {
    fn read(&mut self, into: &mut [u8]) -> io::Result<usize> {
        if self.given || into.is_empty() {
            return Err(Error::from(ErrorKind::BrokenPipe));
        }
        self.given = true;
        into[0] = b'x';
        Ok(1)
    }
}

/// Whether a read into three places gives this.
fn takes<S: Source>(source: &mut S, want: Result<&str, Failed>) -> bool {
    let mut into = [0u8; 3];
    match (source.read(&mut into), want) {
        (Ok(count), Ok(text)) => count <= 3 && &into[..count] == text.as_bytes(),
        (Err(Failed), Err(Failed)) => true,
        _ => false,
    }
}

/// Whether a write of this text is answered so.
fn writes<K: Sink>(sink: &mut K, text: &str, want: Result<usize, Failed>) -> bool {
    !text.is_empty() && sink.write(text.as_bytes()) == want
}

#[test]
fn a_source_in_memory_gives_pieces_and_fails_where_listed(rt: HostRuntime) -> Result<(), Fail> {
    let alloc = rt.alloc();
    let bytes = Vec::from_array(alloc, *b"abcdefg")?;
    let mut source = MemSource::new(bytes, 4, vec![in alloc; 2, 3]?);
    let wants = [
        Ok("abc"),
        Err(Failed),
        Err(Failed),
        Ok("def"),
        Ok("g"),
        Ok(""),
    ];
    for want in wants {
        assert!(rt; takes(&mut source, want));
    }
    let mut small = MemSource::new(Vec::from_array(alloc, *b"abc")?, 2, Vec::new(alloc));
    assert!(rt; takes(&mut small, Ok("ab")));
    Ok(())
}

#[test]
fn a_sure_source_gives_all_its_bytes(rt: HostRuntime) -> Result<(), Fail> {
    let alloc = rt.alloc();
    let mut source = SureSource::new(Vec::from_array(alloc, *b"abcd")?);
    for want in [Ok("abc"), Ok("d"), Ok(""), Ok("")] {
        assert!(rt; takes(&mut source, want));
    }
    Ok(())
}

#[test]
fn a_sink_in_memory_takes_pieces_and_fails_where_listed_or_full(
    rt: HostRuntime,
) -> Result<(), Fail> {
    let alloc = rt.alloc();
    let mut sink = MemSink::new(alloc, 5, 2, vec![in alloc; 1]?)?;
    let calls = [
        ("abc", Err(Failed)),
        ("abc", Ok(2)),
        ("c", Ok(1)),
        ("defg", Ok(2)),
        ("fg", Err(Failed)),
    ];
    for (text, want) in calls {
        assert!(rt; writes(&mut sink, text, want), "at {text}");
    }
    assert!(rt; sink.bytes() == b"abcde".as_slice());
    Ok(())
}

#[test]
fn std_readers_and_writers_pass_their_bytes_and_errors(rt: HostRuntime) -> Result<(), Fail> {
    let mut source = StdSource::new("abcd".as_bytes());
    for want in [Ok("abc"), Ok("d"), Ok("")] {
        assert!(rt; takes(&mut source, want));
    }
    let mut broken = StdSource::new(OneByte { given: false });
    for want in [Ok("x"), Err(Failed), Err(Failed)] {
        assert!(rt; takes(&mut broken, want));
    }

    let mut places = [0u8; 3];
    let mut sink = StdSink::new(&mut places[..]);
    for (text, want) in [("ab", Ok(2)), ("cd", Ok(1)), ("d", Err(Failed))] {
        assert!(rt; writes(&mut sink, text, want), "at {text}");
    }
    drop(sink);
    assert!(rt; places == *b"abc");
    Ok(())
}

#[test]
fn numbers_are_decimal(rt: HostRuntime) -> Result<(), Fail> {
    let alloc = rt.alloc();
    let cases = [
        (0, "n=0"),
        (-5, "n=-5"),
        (i128::MAX, "n=170141183460469231731687303715884105727"),
        (i128::MIN, "n=-170141183460469231731687303715884105728"),
    ];
    for (value, want) in cases {
        let mut out = Vec::from_array(alloc, *b"n=")?;
        put_number(alloc, &mut out, value)?;
        assert!(rt; out.as_slice() == want.as_bytes(), "at {want}");
    }
    Ok(())
}
