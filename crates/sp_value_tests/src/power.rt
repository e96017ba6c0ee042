//! Worked values, and one of a reference implementation.
ghost use Rattle.std.specs.Prelude.{IfOk};
ghost use Rattle.sp_power.specs.Arrivals.{AllWithin};

use sp_fock::Vector;
use sp_partition::Partition;
use sp_power::{PowerFault, induce};
use std::alloc::Global;
use std::process::Abort;
use std::test::Fail;

// Adds m nodes of residue `i` modulo 2 to a partition.
fn induced(rt: &impl Abort, alloc: Global, i: u8, m: u8, parts: &[u8]) -> Result<Vector, Fail>
    ensures { IfOk result (λ v. AllWithin 2000 v.entries) }
{
    let p = Partition::from_parts(parts)?;
    assert!(rt; i < 2);
    assert!(rt; p.degree() <= 20);
    assert!(rt; m <= 10);
    let v = Vector::one(alloc, &p)?;
    Ok(induce(alloc, 2, i, m, &v, 1).expect(rt, "fits"))
}

fn text_of(alloc: Global, v: &Vector) -> Result<Vec<u8>, Fail> {
    let mut text = Vec::from_slice(alloc, b"= ")?;
    v.print(alloc, &mut text)?;
    Ok(text)
}

#[test]
fn adds_nodes_in_all_ways(rt: HostRuntime) -> Result<(), Fail> {
    let alloc = rt.alloc();
    let once = induced(&rt, alloc, 0, 1, &[3, 1])?;
    assert_eq!(rt;
        text_of(alloc, &once)?.as_slice(),
        b"= v^-1[3,2] + [3,1^2]".as_slice()
    );
    let level = induced(&rt, alloc, 0, 1, &[2, 2])?;
    assert_eq!(rt;
        text_of(alloc, &level)?.as_slice(),
        b"= [3,2] + [2^2,1]".as_slice()
    );
    let twice = induced(&rt, alloc, 0, 2, &[2, 1])?;
    assert_eq!(rt;
        text_of(alloc, &twice)?.as_slice(),
        b"= [3,2] + v[3,1^2] + v^2[2^2,1]".as_slice()
    );
    let none = induced(&rt, alloc, 1, 1, &[2, 2])?;
    assert_eq!(rt; text_of(alloc, &none)?.as_slice(), b"= 0".as_slice());
    Ok(())
}

#[test]
fn sizes_meet_at_one_partition(rt: HostRuntime) -> Result<(), Fail> {
    let alloc = rt.alloc();
    let v = induced(&rt, alloc, 1, 1, &[1])?;
    assert_eq!(rt; v.degree(), 2);
    assert!(rt; matches!(induce(alloc, 2, 1, 1, &v, 1), Err(PowerFault::TooLarge)));
    let sum = induce(alloc, 2, 1, 1, &v, 2).expect(&rt, "fits");
    assert_eq!(rt;
        text_of(alloc, &sum)?.as_slice(),
        b"= (v^-1+v)[2,1]".as_slice()
    );
    Ok(())
}
