//! Worked values, and some of a reference implementation.
ghost use Rattle.std.specs.Prelude.{IfOk};
ghost use Rattle.sp_power.specs.Arrivals.{half_power_limit, AllWithin};

use sp_fock::Vector;
use sp_partition::Partition;
use sp_power::{PowerFault, induce};
use sp_sl2::{commutator, restrict};
use std::alloc::Global;
use std::process::Abort;
use std::test::Fail;

// Adds m nodes of residue `i` modulo 2 to a partition.
fn induced(rt: &impl Abort, alloc: Global, i: u8, m: u8, parts: &[u8]) -> Result<Vector, Fail>
    ensures { IfOk result (λ v. AllWithin half_power_limit v.entries) }
{
    let p = Partition::from_parts(parts)?;
    assert!(rt; i < 2);
    assert!(rt; p.degree() <= 20);
    assert!(rt; m <= 10);
    let v = Vector::one(alloc, &p)?;
    Ok(induce(alloc, 2, i, m, &v, 1).expect(rt, "fits"))
}

fn text_of(alloc: Global, v: &Vector) -> Result<Vec<u8>, Fail> {
    let mut text = Vec::from_slice(alloc, b"= ")?;
    v.print(alloc, &mut text)?;
    Ok(text)
}

#[test]
fn a_node_is_removed_in_all_ways(rt: HostRuntime) -> Result<(), Fail> {
    let alloc = rt.alloc();
    let hook = induced(&rt, alloc, 0, 0, &[3, 1, 1])?;
    let less = restrict(alloc, 2, 0, &hook, 1).expect(&rt, "fits");
    assert_eq!(rt;
        text_of(alloc, &less)?.as_slice(),
        b"= [3,1] + [2,1^2]".as_slice()
    );
    let stairs = induced(&rt, alloc, 0, 0, &[4, 3, 2])?;
    let shorter = restrict(alloc, 2, 1, &stairs, 1).expect(&rt, "fits");
    assert_eq!(rt;
        text_of(alloc, &shorter)?.as_slice(),
        b"= v^-1[4,3,1] + [4,2^2] + v[3^2,2]".as_slice()
    );
    let empty = induced(&rt, alloc, 0, 0, &[])?;
    let nothing = restrict(alloc, 2, 0, &empty, 1).expect(&rt, "fits");
    assert_eq!(rt; nothing.degree(), 0);
    assert_eq!(rt; text_of(alloc, &nothing)?.as_slice(), b"= 0".as_slice());
    Ok(())
}

#[test]
fn sizes_meet_at_one_partition(rt: HostRuntime) -> Result<(), Fail> {
    let alloc = rt.alloc();
    let v = induced(&rt, alloc, 1, 1, &[1])?;
    assert!(rt; matches!(restrict(alloc, 2, 1, &v, 1), Err(PowerFault::TooLarge)));
    let sum = restrict(alloc, 2, 1, &v, 2).expect(&rt, "fits");
    assert_eq!(rt;
        text_of(alloc, &sum)?.as_slice(),
        b"= (v^-1+v)[1]".as_slice()
    );
    Ok(())
}

#[test]
fn the_commutator_multiplies_by_balanced_integers(rt: HostRuntime) -> Result<(), Fail> {
    let alloc = rt.alloc();
    let hook = induced(&rt, alloc, 0, 0, &[3, 1, 1])?;
    let minus = commutator(alloc, 2, 0, 0, &hook, 1).expect(&rt, "fits");
    assert_eq!(rt;
        text_of(alloc, &minus)?.as_slice(),
        b"= -[3,1^2]".as_slice()
    );
    let apart = commutator(alloc, 2, 0, 1, &hook, 1).expect(&rt, "fits");
    assert_eq!(rt; text_of(alloc, &apart)?.as_slice(), b"= 0".as_slice());
    assert!(rt;
        matches!(
            commutator(alloc, 2, 1, 1, &hook, 1),
            Err(PowerFault::TooLarge)
        )
    );
    let two = commutator(alloc, 2, 1, 1, &hook, 2).expect(&rt, "fits");
    assert_eq!(rt;
        text_of(alloc, &two)?.as_slice(),
        b"= (v^-1+v)[3,1^2]".as_slice()
    );
    let stairs = induced(&rt, alloc, 0, 0, &[4, 3, 2, 1])?;
    let four = commutator(alloc, 2, 1, 1, &stairs, 4).expect(&rt, "fits");
    assert_eq!(rt;
        text_of(alloc, &four)?.as_slice(),
        b"= (-v^-3-v^-1-v-v^3)[4,3,2,1]".as_slice()
    );
    Ok(())
}
