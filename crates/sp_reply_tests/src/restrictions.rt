// Restrictions, commutators and branches, as lines: values of a reference implementation.
use sp_partition::{DEGREE_LIMIT, Partition};
use sp_replies::{put_branch, put_commutator, put_restriction};
use std::alloc::Global;
use std::process::Abort;
use std::test::Fail;

fn restricted(rt: &impl Abort, alloc: Global, e: u8, i: u8, parts: &[u8]) -> Result<Vec<u8>, Fail> {
    let p = Partition::from_parts(parts)?;
    assert!(rt; 2 <= e);
    assert!(rt; e <= 64);
    assert!(rt; i < e);
    let mut out = Vec::new(alloc);
    put_restriction(alloc, 1, e, i, &p, &mut out)?;
    Ok(out)
}

fn commuted(
    rt: &impl Abort,
    alloc: Global,
    limit: u128,
    e: u8,
    residues: (u8, u8),
    parts: &[u8],
) -> Result<Vec<u8>, Fail> {
    let p = Partition::from_parts(parts)?;
    assert!(rt; 1 <= limit);
    assert!(rt; limit <= 1000);
    assert!(rt; 2 <= e);
    assert!(rt; e <= 64);
    assert!(rt; residues.0 < e);
    assert!(rt; residues.1 < e);
    let mut out = Vec::new(alloc);
    put_commutator(alloc, limit, e, residues.0, residues.1, &p, &mut out)?;
    Ok(out)
}

fn branched(
    rt: &impl Abort,
    alloc: Global,
    limit: u128,
    e: u8,
    i: u8,
    parts: &[u8],
) -> Result<Vec<u8>, Fail> {
    let mu = Partition::from_parts(parts)?;
    assert!(rt; 1 <= limit);
    assert!(rt; limit <= 1000);
    assert!(rt; 2 <= e);
    assert!(rt; e <= 64);
    assert!(rt; i < e);
    assert!(rt; mu.degree() <= DEGREE_LIMIT);
    assert!(rt; mu.is_regular(e));
    let mut out = Vec::new(alloc);
    put_branch(alloc, limit, e, i, &mu, &mut out)?;
    Ok(out)
}

#[test]
fn one_partition_is_restricted(rt: HostRuntime) -> Result<(), Fail> {
    let alloc = rt.alloc();
    assert_eq!(rt;
        restricted(&rt, alloc, 2, 0, &[3, 1, 1])?.as_slice(),
        b"[3,1] + [2,1^2]\n".as_slice()
    );
    assert_eq!(rt;
        restricted(&rt, alloc, 3, 1, &[4, 2, 1])?.as_slice(),
        b"[4,2]\n".as_slice()
    );
    assert_eq!(rt;
        restricted(&rt, alloc, 4, 2, &[5, 3, 1, 1])?.as_slice(),
        b"0\n".as_slice()
    );
    assert_eq!(rt;
        restricted(&rt, alloc, 2, 0, &[])?.as_slice(),
        b"0\n".as_slice()
    );
    Ok(())
}

#[test]
fn a_commutator_multiplies_by_a_balanced_integer(rt: HostRuntime) -> Result<(), Fail> {
    let alloc = rt.alloc();
    assert_eq!(rt;
        commuted(&rt, alloc, 1, 2, (0, 0), &[3, 1, 1])?.as_slice(),
        b"-[3,1^2]\n".as_slice()
    );
    assert_eq!(rt;
        commuted(&rt, alloc, 2, 2, (1, 1), &[3, 1, 1])?.as_slice(),
        b"(v^-1+v)[3,1^2]\n".as_slice()
    );
    assert_eq!(rt;
        commuted(&rt, alloc, 3, 3, (2, 2), &[5, 3, 1])?.as_slice(),
        b"(v^-2+1+v^2)[5,3,1]\n".as_slice()
    );
    Ok(())
}

#[test]
fn a_commutator_of_two_residues_is_0(rt: HostRuntime) -> Result<(), Fail> {
    let alloc = rt.alloc();
    assert_eq!(rt;
        commuted(&rt, alloc, 1, 2, (0, 1), &[3, 1, 1])?.as_slice(),
        b"0\n".as_slice()
    );
    Ok(())
}

#[test]
fn a_commutator_past_the_limit_is_refused(rt: HostRuntime) -> Result<(), Fail> {
    let alloc = rt.alloc();
    assert_eq!(rt;
        commuted(&rt, alloc, 1, 2, (1, 1), &[3, 1, 1])?.as_slice(),
        b"error 9 too large\n".as_slice()
    );
    Ok(())
}

#[test]
fn a_row_is_restricted(rt: HostRuntime) -> Result<(), Fail> {
    let alloc = rt.alloc();
    assert_eq!(rt;
        branched(&rt, alloc, 1000, 2, 0, &[5])?.as_slice(),
        b"[4] + v[3,1] + v[2,1^2] + v^2[1^4]\n".as_slice()
    );
    assert_eq!(rt;
        branched(&rt, alloc, 1000, 3, 0, &[4, 2, 1])?.as_slice(),
        b"(v^-1+v)[4,1^2] + (1+v^2)[3,2,1] + (v+v^3)[3,1^3]\n".as_slice()
    );
    assert_eq!(rt;
        branched(&rt, alloc, 1000, 4, 3, &[4, 3, 1])?.as_slice(),
        b"(v^-1+v)[3^2,1] + (1+v^2)[3,2,1^2]\n".as_slice()
    );
    Ok(())
}

#[test]
fn the_row_of_nothing_restricts_to_0(rt: HostRuntime) -> Result<(), Fail> {
    let alloc = rt.alloc();
    assert_eq!(rt;
        branched(&rt, alloc, 1, 2, 0, &[])?.as_slice(),
        b"0\n".as_slice()
    );
    assert_eq!(rt;
        branched(&rt, alloc, 1, 2, 0, &[1])?.as_slice(),
        b"[-]\n".as_slice()
    );
    Ok(())
}

#[test]
fn a_branch_is_refused_by_its_row_or_by_itself(rt: HostRuntime) -> Result<(), Fail> {
    let alloc = rt.alloc();
    assert_eq!(rt;
        branched(&rt, alloc, 1, 3, 2, &[5, 3, 2])?.as_slice(),
        b"[5,3,1]\n".as_slice()
    );
    // the row fits: its restriction doesn't
    assert_eq!(rt;
        branched(&rt, alloc, 1, 2, 1, &[2])?.as_slice(),
        b"error 9 too large\n".as_slice()
    );
    // the row doesn't fit: its restriction would be 0
    assert_eq!(rt;
        branched(&rt, alloc, 1, 2, 1, &[5])?.as_slice(),
        b"error 9 too large\n".as_slice()
    );
    Ok(())
}
