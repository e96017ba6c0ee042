//! Worked sums.
ghost use Rattle.std.specs.Prelude.{◌≤◌};

use sp_jantzen::jantzen;
use sp_partition::Partition;
use std::alloc::Global;
use std::test::Fail;

// The text of the Jantzen sum of the partition with these parts.
fn text_of(alloc: Global, e: u8, parts: &[u8]) -> Result<Vec<u8>, Fail>
    requires e_least { 2 ≤ e }
    requires e_most { e ≤ 64 }
{
    let mut text = Vec::new(alloc);
    jantzen(alloc, e, &Partition::from_parts(parts)?)?.print(alloc, &mut text)?;
    Ok(text)
}

#[test]
fn sums_at_degrees_up_to_five(rt: HostRuntime) -> Result<(), Fail> {
    let alloc = rt.alloc();
    assert_eq!(rt;
        text_of(alloc, 3, &[1, 1, 1])?.as_slice(),
        b"-[3] + [2,1]".as_slice()
    );
    assert_eq!(rt; text_of(alloc, 3, &[3])?.as_slice(), b"0".as_slice());
    assert_eq!(rt;
        text_of(alloc, 2, &[3, 1, 1])?.as_slice(),
        b"[5] + [3,2]".as_slice()
    );
    assert_eq!(rt; text_of(alloc, 2, &[])?.as_slice(), b"0".as_slice());
    Ok(())
}

#[test]
fn sums_at_degree_four(rt: HostRuntime) -> Result<(), Fail> {
    let alloc = rt.alloc();
    assert_eq!(rt; text_of(alloc, 2, &[4])?.as_slice(), b"0".as_slice());
    assert_eq!(rt; text_of(alloc, 2, &[3, 1])?.as_slice(), b"[4]".as_slice());
    assert_eq!(rt;
        text_of(alloc, 2, &[2, 2])?.as_slice(),
        b"-[4] + [3,1]".as_slice()
    );
    assert_eq!(rt;
        text_of(alloc, 2, &[2, 1, 1])?.as_slice(),
        b"[3,1] + [2^2]".as_slice()
    );
    assert_eq!(rt;
        text_of(alloc, 2, &[1, 1, 1, 1])?.as_slice(),
        b"[4] - [2^2] + [2,1^2]".as_slice()
    );
    Ok(())
}

#[test]
fn sums_at_degree_thirty_two(rt: HostRuntime) -> Result<(), Fail> {
    let alloc = rt.alloc();
    let of_two_rows = b"-[31,1] + [30,2] - [26,6] + [25,7] - [21,11] + [20,12]";
    assert_eq!(rt;
        text_of(alloc, 5, &[16, 16])?.as_slice(),
        of_two_rows.as_slice()
    );
    let of_three_rows =
        b"-[25,7] + [20,12] - [19,12,1] + [19,7,6] + [18,13,1] - [18,7^2] - [13^2,6] + [13,12,7]";
    assert_eq!(rt;
        text_of(alloc, 7, &[12, 12, 8])?.as_slice(),
        of_three_rows.as_slice()
    );
    assert_eq!(rt;
        text_of(alloc, 31, &[29, 2, 1])?.as_slice(),
        b"-[32] + [30,2]".as_slice()
    );
    assert_eq!(rt; text_of(alloc, 64, &[1; 32])?.as_slice(), b"0".as_slice());
    Ok(())
}
