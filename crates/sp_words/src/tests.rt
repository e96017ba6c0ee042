use crate::{GREATEST_LIMIT, Words, WordsFault, generated, read_words};
use std::alloc::{AllocError, Global};
use std::test::Fail;

fn read(alloc: Global, list: &[&str], many: bool) -> Result<Result<Words, WordsFault>, AllocError> {
    let mut words = Vec::new(alloc);
    for word in list {
        words.push(String::from_str(alloc, word)?)?;
    }
    Ok(read_words(alloc, &words, many))
}

fn said(workers: u8, limit: u128, generate: Option<u32>) -> Result<Words, WordsFault> {
    Ok(Words {
        workers,
        limit,
        generate,
    })
}

#[test]
fn options_stand_in_two_forms_and_any_order(rt: HostRuntime) -> Result<(), Fail> {
    let alloc = rt.alloc();
    let cases: [(&[&str], Result<Words, WordsFault>); 8] = [
        (&[], said(4, GREATEST_LIMIT, None)),
        (&["--limit", "1"], said(4, 1, None)),
        (&["--limit=70"], said(4, 70, None)),
        (
            &["--limit", "170141183460469231731687303715884105727"],
            said(4, GREATEST_LIMIT, None),
        ),
        (&["--workers", "16"], said(16, GREATEST_LIMIT, None)),
        (&["--generate=0"], said(4, GREATEST_LIMIT, Some(0))),
        (
            &["--generate", "2147483647", "--workers=1"],
            said(1, GREATEST_LIMIT, Some(2_147_483_647)),
        ),
        (
            &["--workers", "3", "--limit=7", "--generate", "5"],
            said(3, 7, Some(5)),
        ),
    ];
    for (words, want) in cases {
        assert_eq!(rt; read(alloc, words, true)?, want);
    }
    assert_eq!(rt; read(alloc, &["--limit", "9"], false)?, said(4, 9, None));
    assert_eq!(rt;
        read(alloc, &["--workers", "2"], false)?,
        Err(WordsFault::Usage)
    );
    Ok(())
}

#[test]
fn other_words_are_refused(rt: HostRuntime) -> Result<(), Fail> {
    let alloc = rt.alloc();
    let cases: [&[&str]; 26] = [
        &["--limit", "007"],
        &["--limit=007"],
        &["--limit", "0"],
        &["--limit", "+7"],
        &["--limit", "-7"],
        &["--limit", " 7"],
        &["--limit", "7x"],
        &["--limit="],
        &["--limit"],
        &["--limit", ""],
        &["--limit", "170141183460469231731687303715884105728"],
        &["--limit=340282366920938463463374607431768211457"],
        &["--limit", "7", "--limit=7"],
        &["--limit=7", "--limit", "7"],
        &["--"],
        &["--limit", "--"],
        &["frob"],
        &["--lim", "7"],
        &["--help"],
        &["-h"],
        &["--workers", "0"],
        &["--workers", "17"],
        &["--workers", "04"],
        &["--workers=4", "--workers=4"],
        &["--generate", "2147483648"],
        &["--generate", "007"],
    ];
    for words in cases {
        assert_eq!(rt; read(alloc, words, true)?, Err(WordsFault::Usage));
    }
    Ok(())
}

#[test]
fn lines_are_made_from_zero(rt: HostRuntime) -> Result<(), Fail> {
    let text = generated(rt.alloc(), 0)?;
    assert!(rt; text.starts_with(b"crystal 5 9\ndecomposition 5 8\n"));
    assert_eq!(rt; text.iter().filter(|byte| **byte == b'\n').count(), 200);
    Ok(())
}
