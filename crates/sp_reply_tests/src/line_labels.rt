// What the commands take in each convention.
use sp_lang::{Command, Convention, LineFault, read_command};
use sp_partition::Partition;
use std::test::Fail;

#[test]
fn rows_are_labelled_as_the_convention_says(rt: HostRuntime) -> Result<(), Fail> {
    let cases: [(&[u8], Option<LineFault>, Option<LineFault>); 11] = [
        (b"row 2 5", None, Some(LineFault::NotRestricted)),
        (b"row 2 1^5", Some(LineFault::NotRegular), None),
        (
            b"row 2 2^2",
            Some(LineFault::NotRegular),
            Some(LineFault::NotRestricted),
        ),
        (b"row 2 2,1", None, None),
        (b"row 3 3", None, Some(LineFault::NotRestricted)),
        (b"ladder 2 5", None, Some(LineFault::NotRestricted)),
        (b"ladder 3 1^3", Some(LineFault::NotRegular), None),
        (
            b"row 2 1,5",
            Some(LineFault::BadPartition),
            Some(LineFault::BadPartition),
        ),
        (b"row 65 5", Some(LineFault::BadE), Some(LineFault::BadE)),
        (
            b"row 2 1^31",
            Some(LineFault::DegreePast),
            Some(LineFault::DegreePast),
        ),
        (
            b"ladder 2 33",
            Some(LineFault::DegreePast),
            Some(LineFault::DegreePast),
        ),
    ];
    for (line, regular, restricted) in cases {
        let outcome = read_command(rt.alloc(), Convention::Regular, line).err();
        assert!(rt; outcome == regular, "at {line:?}");
        let outcome = read_command(rt.alloc(), Convention::Restricted, line).err();
        assert!(rt; outcome == restricted, "at {line:?}");
    }
    Ok(())
}

#[test]
fn other_commands_are_read_alike_in_both_conventions(rt: HostRuntime) -> Result<(), Fail> {
    let cases: [(&[u8], Option<LineFault>); 20] = [
        (b"path 2 1^2", Some(LineFault::NotRegular)),
        (b"path 2 2", None),
        (b"mullineux 2 1^2", Some(LineFault::NotRegular)),
        (b"mullineux 2 2", None),
        (b"ladders 2 1^2", Some(LineFault::NotRegular)),
        (b"ladders 2 2", None),
        (b"branch 2 0 1^2", Some(LineFault::NotRegular)),
        (b"branch 2 0 2", None),
        (b"simple 2 1^2", Some(LineFault::NotRegular)),
        (b"simple 2 2", None),
        (b"jantzen 2 2^2", None),
        (b"block 2 2^2 0", None),
        (b"convention regular", None),
        (b"convention restricted", None),
        (b"convention", Some(LineFault::WordCount)),
        (b"convention regular regular", Some(LineFault::WordCount)),
        (b"convention dual", Some(LineFault::UnknownConvention)),
        (b"convention Regular", Some(LineFault::UnknownConvention)),
        (b"convention regularly", Some(LineFault::UnknownConvention)),
        (b"conventions regular", Some(LineFault::UnknownCommand)),
    ];
    for (line, fault) in cases {
        for convention in [Convention::Regular, Convention::Restricted] {
            let outcome = read_command(rt.alloc(), convention, line).err();
            assert!(rt; outcome == fault, "at {line:?}");
        }
    }
    Ok(())
}

#[test]
fn a_partition_is_kept_as_it_is_written(rt: HostRuntime) -> Result<(), Fail> {
    let outcome = read_command(rt.alloc(), Convention::Restricted, b"row 2 1^5");
    assert!(rt; matches!(&outcome, Ok(Command::Row(_, _))));
    if let Ok(Command::Row(e, mu)) = &outcome {
        assert_eq!(rt; *e, 2);
        assert_eq!(rt; *mu, Partition::from_parts(&[1, 1, 1, 1, 1])?);
    }
    Ok(())
}

#[test]
fn a_convention_is_read_by_its_name(rt: HostRuntime) -> Result<(), Fail> {
    let cases: [(&[u8], Convention); 2] = [
        (b"convention regular", Convention::Regular),
        (b"\tconvention  restricted ", Convention::Restricted),
    ];
    for (line, convention) in cases {
        let outcome = read_command(rt.alloc(), Convention::Regular, line);
        assert!(rt;
            matches!(&outcome, Ok(Command::Convention(_))),
            "at {line:?}"
        );
        if let Ok(Command::Convention(other)) = &outcome {
            assert!(rt; *other == convention, "at {line:?}");
        }
    }
    Ok(())
}

#[test]
fn labels_are_conjugates_where_they_are_restricted(rt: HostRuntime) -> Result<(), Fail> {
    let p = Partition::from_parts(&[3, 1])?;
    assert_eq!(rt; Convention::Regular.label(&p), p);
    assert_eq!(rt;
        Convention::Restricted.label(&p),
        Partition::from_parts(&[2, 1, 1])?
    );
    assert_eq!(rt; Convention::Restricted.name(), b"restricted".as_slice());
    Ok(())
}
