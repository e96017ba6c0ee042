ghost use Rattle.std.specs.Prelude.{◌≡◌, ◌≤◌, ◌<◌, ◌^◌};

use sp_fock::Vector;
use sp_llt::{AdoptFault, Ctx, Entry, Refused, entry_alone, rows_law};
use sp_partition::{DEGREE_LIMIT, Partition};
use std::alloc::Global;
use std::test::Fail;

#[test]
fn the_law_is_there(_rt: HostRuntime) -> Result<(), Fail> {
    rows_law();
    Ok(())
}

/// The rank of a partition among the e-regular ones.
fn rank_in(ctx: &Ctx, mu: &Partition) -> Option<usize> {
    ctx.regulars().iter().position(|other| other == mu)
}

/// The row of a partition with its shares, or what refused it.
fn text(alloc: Global, e: u8, parts: &[u8], limit: u128) -> Result<Vec<u8>, Fail>
    requires e_least { 2 ≤ e }
    requires e_most { e ≤ 64 }
    requires least { 1 ≤ limit }
    requires most { limit < 2 ^ 127 }
{
    let mut out = Vec::new(alloc);
    let mu = Partition::from_parts(parts)?;
    if mu.degree() > DEGREE_LIMIT {
        return Ok(out);
    }
    let ctx = Ctx::open(alloc, e, mu.degree(), limit)?;
    let Some(k) = rank_in(&ctx, &mu) else {
        return Ok(out);
    };
    if k >= ctx.regulars().len() {
        return Ok(out);
    }
    let entry = entry_alone(alloc, &ctx, k)?;
    put_row(alloc, &entry, &mut out)?;
    for share in entry.shares() {
        out.extend_from_slice(b"; ")?;
        share.alpha.print(alloc, &mut out)?;
        out.extend_from_slice(b" at ")?;
        if let Some(nu) = ctx.regulars().get(share.rank) {
            nu.print(alloc, &mut out)?;
        }
    }
    Ok(out)
}

fn put_row(alloc: Global, entry: &Entry, out: &mut Vec<u8>) -> Result<(), Fail> {
    match entry.row() {
        Ok(row) => row.print(alloc, out)?,
        Err(Refused::TooLarge) => out.extend_from_slice(b"too large")?,
        Err(Refused::Stray { .. }) => out.extend_from_slice(b"stray")?,
    }
    Ok(())
}

#[test]
fn rows_and_limits(rt: HostRuntime) -> Result<(), Fail> {
    let alloc = rt.alloc();
    let large = b"too large".as_slice();
    let five = b"[5] + v[3,1^2] + v^2[1^5]; 1 at 3,2".as_slice();
    assert_eq!(rt; text(alloc, 2, &[5], 3)?.as_slice(), five);
    assert_eq!(rt; text(alloc, 2, &[5], 2)?.as_slice(), large);
    let seven = b"[7] + v[5,1^2] + v^2[3,1^4] + v^3[1^7]; 2 at 5,2; 1 at 4,2,1".as_slice();
    assert_eq!(rt; text(alloc, 2, &[7], 6)?.as_slice(), seven);
    assert_eq!(rt; text(alloc, 2, &[7], 5)?.as_slice(), large);
    // a coefficient of a partial ladder vector is past the limit, none of the vector itself
    assert_eq!(rt; text(alloc, 4, &[5, 2, 2, 1, 1], 1)?.as_slice(), large);
    Ok(())
}

#[test]
fn shares_of_more_terms_and_needed_weights(rt: HostRuntime) -> Result<(), Fail> {
    let alloc = rt.alloc();
    let six_two =
        b"[6,2] + v[6,1^2] + v[5,3] + v^2[5,1^3] + v[4,3,1] + v^2[4,2^2] + (v+v^3)[4,2,1^2] \
        + v^2[4,1^4] + v^2[3^2,1^2] + v^3[3,2^2,1] + v^3[3,1^5] + v^3[2^3,1^2] + v^4[2^2,1^4]; \
        v^-1+v at 4,3,1"
            .as_slice();
    assert_eq!(rt; text(alloc, 2, &[6, 2], 1_000_000)?.as_slice(), six_two);
    // the weight of (9,1) itself is 3, that of a partition that it needs is 6
    let nine_one = b"[9,1] + v[6,2^2] + v[3^2,2,1^2] + v^2[3,2^3,1]; 1 at 6,4".as_slice();
    assert_eq!(rt; text(alloc, 3, &[9, 1], 6)?.as_slice(), nine_one);
    assert_eq!(rt;
        text(alloc, 3, &[9, 1], 5)?.as_slice(),
        b"too large".as_slice()
    );
    Ok(())
}

#[test]
fn rows_of_greater_degrees(rt: HostRuntime) -> Result<(), Fail> {
    let alloc = rt.alloc();
    let large = b"too large".as_slice();
    let ten = b"[10] + v[8,2] + v[7,2,1] + v[6,2,1^2] + v^2[5,2^2,1] + v[4,3,2,1] + v^2[4,3,1^3] \
        + v^2[4,2^3] + v^2[3^3,1] + v^3[2^5]; 1 at 7,3"
        .as_slice();
    assert_eq!(rt; text(alloc, 3, &[10], 5)?.as_slice(), ten);
    assert_eq!(rt; text(alloc, 3, &[10], 4)?.as_slice(), large);
    let six_five = b"[6,5] + v[6,3,1^2] + v^2[6,1^5] + v[5,3,2,1] + v^2[4^2,2,1] + v^2[4,3,2^2] \
        + v^3[4,3,2,1^2] + v^3[4,2^2,1^3] + v^4[2^5,1]; 1 at 6,3,2"
        .as_slice();
    assert_eq!(rt; text(alloc, 2, &[6, 5], 5)?.as_slice(), six_five);
    assert_eq!(rt; text(alloc, 2, &[6, 5], 4)?.as_slice(), large);
    let six_four = b"[6,4] + v[6,2^2] + v^2[4^2,2]; 1 at 4^2,2; v^-1+v at 3^2,2,1^2".as_slice();
    assert_eq!(rt; text(alloc, 3, &[6, 4], 1_000_000)?.as_slice(), six_four);
    let thirty = b"[30] + v[29,1]".as_slice();
    assert_eq!(rt; text(alloc, 30, &[30], 1_000_000)?.as_slice(), thirty);
    Ok(())
}

#[test]
fn the_empty_partition_has_a_row(rt: HostRuntime) -> Result<(), Fail> {
    assert_eq!(rt; text(rt.alloc(), 2, &[], 1)?.as_slice(), b"[-]".as_slice());
    Ok(())
}

/// What a listed row with no shares is taken as.
fn adopted(alloc: Global, ctx: &Ctx, k: usize, row: &Vector) -> Result<Vec<u8>, Fail>
    requires { row.now.degree ≡ ctx.now.degree }
{
    let mut out = Vec::new(alloc);
    if k >= ctx.regulars().len() {
        return Ok(out);
    }
    match Entry::adopt(alloc, ctx, k, &[], row, &[]) {
        Ok(entry) => put_row(alloc, &entry, &mut out)?,
        Err(AdoptFault::TooLarge) => out.extend_from_slice(b"too large")?,
        Err(AdoptFault::Wrong) => out.extend_from_slice(b"wrong")?,
        Err(AdoptFault::Memory) => out.extend_from_slice(b"memory")?,
    }
    Ok(out)
}

#[test]
fn listed_rows(rt: HostRuntime) -> Result<(), Fail> {
    let alloc = rt.alloc();
    let five = Vector::one(alloc, &Partition::from_parts(&[5])?)?;
    if five.degree() != 5 {
        return Ok(());
    }
    // the ladder vector of (5) is the sum of the row and that of (3,2), which is not listed among the shares
    let ctx = Ctx::open(alloc, 2, 5, 1_000_000)?;
    assert_eq!(rt;
        adopted(alloc, &ctx, 2, &five)?.as_slice(),
        b"wrong".as_slice()
    );
    // its coefficient 2v is past the limit
    let small = Ctx::open(alloc, 2, 5, 1)?;
    assert_eq!(rt;
        adopted(alloc, &small, 2, &five)?.as_slice(),
        b"too large".as_slice()
    );
    // the row of (3,2) has no shares
    if ctx.regulars().is_empty() {
        return Ok(());
    }
    let first = entry_alone(alloc, &ctx, 0)?;
    if let Ok(row) = first.row() {
        let text = b"[3,2] + v[3,1^2] + v^2[2^2,1]".as_slice();
        assert_eq!(rt; adopted(alloc, &ctx, 0, row)?.as_slice(), text);
    }
    Ok(())
}
