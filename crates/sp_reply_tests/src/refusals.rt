// The lines that no input reaches, and those of certificates.
use sp_llt::{FirstRefused, Refused};
use sp_partition::Partition;
use sp_replies::{Refusal, put_refusal};
use std::alloc::Global;
use std::test::Fail;

/// The line that says why a command is refused.
fn line_of(alloc: Global, why: &Refusal) -> Result<Vec<u8>, Fail> {
    let mut out = Vec::new(alloc);
    put_refusal(alloc, why, &mut out)?;
    Ok(out)
}

// No row is stray, by the theorem of Kashiwara and of Lascoux, Leclerc and Thibon.
#[test]
fn a_stray_coefficient_is_named_with_its_column(rt: HostRuntime) -> Result<(), Fail> {
    let alloc = rt.alloc();
    let at = Partition::from_parts(&[3, 1, 1])?;
    let mu = Partition::from_parts(&[5])?;
    let alone = Refusal::from(Refused::Stray { at });
    assert_eq!(rt;
        line_of(alloc, &alone)?.as_slice(),
        b"error 10 stray coefficient at 3,1^2\n".as_slice()
    );
    let why = Refused::Stray { at };
    let column = Refusal::from(FirstRefused { mu, why });
    assert_eq!(rt;
        line_of(alloc, &column)?.as_slice(),
        b"error 10 stray coefficient at 3,1^2 in column 5\n".as_slice()
    );
    Ok(())
}

#[test]
fn a_certificate_is_refused_at_a_line_or_a_column(rt: HostRuntime) -> Result<(), Fail> {
    let alloc = rt.alloc();
    let column = Partition::from_parts(&[4, 1])?;
    assert_eq!(rt;
        line_of(alloc, &Refusal::Malformed { line: u64::MAX })?.as_slice(),
        b"error 15 certificate malformed at line 18446744073709551615\n".as_slice()
    );
    assert_eq!(rt;
        line_of(alloc, &Refusal::WrongColumn { column })?.as_slice(),
        b"error 16 certificate wrong at column 4,1\n".as_slice()
    );
    assert_eq!(rt;
        line_of(alloc, &Refusal::LargeColumn { column })?.as_slice(),
        b"error 9 too large at column 4,1\n".as_slice()
    );
    Ok(())
}

// No product of the degrees that the commands take has as many.
#[test]
fn too_many_fillings_are_refused(rt: HostRuntime) -> Result<(), Fail> {
    assert_eq!(rt;
        line_of(rt.alloc(), &Refusal::TooMany)?.as_slice(),
        b"error 20 too many fillings\n".as_slice()
    );
    Ok(())
}
