ghost use Rattle.std.specs.Prelude.{◌≤◌, ◌<◌, ◌^◌};

use sp_ladder::{Step, ladder_law, ladder_vector, ladders};
use sp_partition::Partition;
use sp_power::PowerFault;
use std::alloc::Global;
use std::test::Fail;

/// The text of a ladder vector, or what refused it.
fn text(alloc: Global, e: u8, parts: &[u8], limit: u128) -> Result<Vec<u8>, Fail>
    requires e_least { 2 ≤ e }
    requires e_most { e ≤ 64 }
    requires least { 1 ≤ limit }
    requires most { limit < 2 ^ 127 }
{
    let mut out = Vec::new(alloc);
    let mu = Partition::from_parts(parts)?;
    if !mu.is_regular(e) {
        out.extend_from_slice(b"not regular")?;
        return Ok(out);
    }
    match ladder_vector(alloc, e, &mu, limit) {
        Ok(vector) => vector.print(alloc, &mut out)?,
        Err(PowerFault::TooLarge) => out.extend_from_slice(b"too large")?,
        Err(PowerFault::Memory) => out.extend_from_slice(b"memory")?,
    }
    Ok(out)
}

#[test]
fn the_law_is_there(_rt: HostRuntime) -> Result<(), Fail> {
    ladder_law();
    Ok(())
}

#[test]
fn ladders_of_three_two(rt: HostRuntime) -> Result<(), Fail> {
    let step = |ladder, residue, count| Step {
        ladder,
        residue,
        count,
    };
    let found = ladders(2, &Partition::from_parts(&[3, 2])?);
    let wanted = [step(1, 0, 1), step(2, 1, 2), step(3, 0, 2)];
    assert_eq!(rt; found.as_slice(), wanted.as_slice());
    Ok(())
}

#[test]
fn ladder_vectors_and_limits(rt: HostRuntime) -> Result<(), Fail> {
    let alloc = rt.alloc();
    let whole = b"[5] + [3,2] + 2v[3,1^2] + v^2[2^2,1] + v^2[1^5]".as_slice();
    assert_eq!(rt; text(alloc, 2, &[5], 1_000_000)?.as_slice(), whole);
    assert_eq!(rt; text(alloc, 2, &[5], 2)?.as_slice(), whole);
    assert_eq!(rt;
        text(alloc, 2, &[5], 1)?.as_slice(),
        b"too large".as_slice()
    );
    // no coefficient of the vector itself has a size past 1 here, one of a partial vector has
    assert_eq!(rt;
        text(alloc, 4, &[5, 2, 2, 1, 1], 1)?.as_slice(),
        b"too large".as_slice()
    );
    assert_eq!(rt;
        text(alloc, 2, &[2, 2], 1)?.as_slice(),
        b"not regular".as_slice()
    );
    assert_eq!(rt; text(alloc, 2, &[], 1)?.as_slice(), b"[-]".as_slice());
    Ok(())
}

/// Whether the coefficient at mu is 1 in its ladder vector, where mu is e-regular.
fn has_one(alloc: Global, e: u8, parts: &[u8]) -> Result<bool, Fail>
    requires e_least { 2 ≤ e }
    requires e_most { e ≤ 64 }
{
    let mu = Partition::from_parts(parts)?;
    if !mu.is_regular(e) {
        return Ok(true);
    }
    let vector = ladder_vector(alloc, e, &mu, 1_000_000)?;
    match vector.coefficient(&mu) {
        Some(polynomial) => Ok(polynomial.terms() == [(0, 1)].as_slice()),
        None => Ok(false),
    }
}

#[test]
fn the_coefficient_at_the_label_is_one(rt: HostRuntime) -> Result<(), Fail> {
    let of_six: [&[u8]; 11] = [
        &[6],
        &[5, 1],
        &[4, 2],
        &[4, 1, 1],
        &[3, 3],
        &[3, 2, 1],
        &[3, 1, 1, 1],
        &[2, 2, 2],
        &[2, 2, 1, 1],
        &[2, 1, 1, 1, 1],
        &[1, 1, 1, 1, 1, 1],
    ];
    for e in 2..5u8 {
        for parts in of_six {
            assert!(rt; has_one(rt.alloc(), e, parts)?, "at e = {e}, {parts:?}");
        }
    }
    Ok(())
}
