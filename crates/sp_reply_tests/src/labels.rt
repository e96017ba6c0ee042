//! Replies in the labels of both conventions.
ghost use Rattle.std.specs.Prelude.{◌≤◌, ◌<◌, ◌^◌};

use sp_lang::Convention;
use sp_partition::{DEGREE_LIMIT, Partition};
use sp_replies::{Refusal, put_jantzen, put_ladder_vector, put_refusal, put_row, refusal_in};
use std::alloc::Global;
use std::test::Fail;

/// The replies to `row` and to `ladder`, where the partition is a label.
fn row_and_ladder(
    alloc: Global,
    limit: u128,
    convention: Convention,
    e: u8,
    parts: &[u8],
) -> Result<Vec<u8>, Fail>
    requires least { 1 ≤ limit }
    requires most { limit < 2 ^ 127 }
    requires e_least { 2 ≤ e }
    requires e_most { e ≤ 64 }
{
    let label = Partition::from_parts(parts)?;
    let mut out = Vec::new(alloc);
    if convention.label(&label).is_regular(e) && label.degree() <= DEGREE_LIMIT {
        put_row(alloc, limit, convention, e, &label, &mut out)?;
        put_ladder_vector(alloc, limit, convention, e, &label, &mut out)?;
    }
    Ok(out)
}

#[test]
fn rows_and_ladder_vectors(rt: HostRuntime) -> Result<(), Fail> {
    let alloc = rt.alloc();
    let regular =
        b"[5] + v[3,1^2] + v^2[1^5]\n[5] + [3,2] + 2v[3,1^2] + v^2[2^2,1] + v^2[1^5]\n".as_slice();
    assert_eq!(rt;
        row_and_ladder(alloc, 3, Convention::Regular, 2, &[5])?.as_slice(),
        regular
    );
    let restricted = Convention::Restricted;
    let turned =
        b"v^2[5] + v[3,1^2] + [1^5]\nv^2[5] + v^2[3,2] + 2v[3,1^2] + [2^2,1] + [1^5]\n".as_slice();
    assert_eq!(rt;
        row_and_ladder(alloc, 3, restricted, 2, &[1; 5])?.as_slice(),
        turned
    );
    let refused =
        b"error 9 too large\nv^2[5] + v^2[3,2] + 2v[3,1^2] + [2^2,1] + [1^5]\n".as_slice();
    assert_eq!(rt;
        row_and_ladder(alloc, 2, restricted, 2, &[1; 5])?.as_slice(),
        refused
    );
    let alone = b"[2^2,1^2]\n[2^2,1^2]\n".as_slice();
    assert_eq!(rt;
        row_and_ladder(alloc, 1_000, restricted, 3, &[2, 2, 1, 1])?.as_slice(),
        alone
    );
    Ok(())
}

#[test]
fn jantzen_sums(rt: HostRuntime) -> Result<(), Fail> {
    let alloc = rt.alloc();
    let mut out = Vec::new(alloc);
    put_jantzen(
        alloc,
        Convention::Restricted,
        3,
        &Partition::from_parts(&[3])?,
        &mut out,
    )?;
    put_jantzen(
        alloc,
        Convention::Regular,
        3,
        &Partition::from_parts(&[1, 1, 1])?,
        &mut out,
    )?;
    assert_eq!(rt; out.as_slice(), b"[2,1] - [1^3]\n-[3] + [2,1]\n".as_slice());
    Ok(())
}

#[test]
fn refusals_name_conjugates(rt: HostRuntime) -> Result<(), Fail> {
    let alloc = rt.alloc();
    let column = Partition::from_parts(&[5])?;
    let at = Partition::from_parts(&[3, 2])?;
    let mut out = Vec::new(alloc);
    for why in [
        Refusal::TooLarge,
        Refusal::LargeColumn { column },
        Refusal::Stray { at },
        Refusal::StrayColumn { column, at },
        Refusal::WrongColumn { column },
    ] {
        put_refusal(alloc, &refusal_in(Convention::Restricted, &why), &mut out)?;
    }
    let told =
        b"error 9 too large\nerror 9 too large at column 1^5\nerror 10 stray coefficient at 2^2,1\n\
        error 10 stray coefficient at 2^2,1 in column 1^5\nerror 16 certificate wrong at column 5\n"
            .as_slice();
    assert_eq!(rt; out.as_slice(), told);
    Ok(())
}
