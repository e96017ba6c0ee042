ghost use Rattle.std.specs.Prelude.{◌+◌, ◌≤◌};
ghost use Rattle.sp_defs.specs.Partition.{degree as degree_of};

use sp_lr::{Filling, LrFault, fillings, product};
use sp_partition::{Partition, all_of};
use std::alloc::Global;
use std::process::Abort;
use std::test::Fail;

fn two_one() -> Partition
    ensures { degree_of result ≤ 3 }
{
    Partition::from_parts(&[2, 1]).unwrap_or_default()
}

// The members of a chain behind the first are these.
fn goes_on(rt: &impl Abort, filling: &Filling, second: &[u8], third: &[u8]) {
    let chain = filling.chain.as_slice();
    assert_eq!(rt; chain.len(), 3);
    assert_eq!(rt; chain[1].parts(), second);
    assert_eq!(rt; chain[2].parts(), third);
}

#[test]
fn fillings_of_content_2_1_over_2_1(rt: HostRuntime) -> Result<(), Fail> {
    let p = two_one();
    let found = fillings(rt.alloc(), &p, &p, 8).expect(&rt, "fillings");
    assert_eq!(rt; found.len(), 8);
    assert_eq!(rt; found[0].chain.as_slice().len(), 3);
    assert_eq!(rt; found[0].chain.as_slice()[0].parts(), [2, 1].as_slice());
    goes_on(&rt, &found[0], &[4, 1], &[4, 2]);
    goes_on(&rt, &found[3], &[3, 2], &[3, 2, 1]);
    goes_on(&rt, &found[4], &[3, 1, 1], &[3, 2, 1]);
    goes_on(&rt, &found[7], &[2, 2, 1], &[2, 2, 1, 1]);
    Ok(())
}

#[test]
fn product_of_2_1_and_2_1(rt: HostRuntime) -> Result<(), Fail> {
    let p = two_one();
    let pairs = product(rt.alloc(), &p, &p, 8).expect(&rt, "a product");
    assert_eq!(rt; pairs.len(), 7);
    assert_eq!(rt; pairs[0].0.parts(), [4, 2].as_slice());
    assert_eq!(rt; pairs[1].0.parts(), [4, 1, 1].as_slice());
    assert_eq!(rt; pairs[2].0.parts(), [3, 3].as_slice());
    assert_eq!(rt; pairs[3].0.parts(), [3, 2, 1].as_slice());
    assert_eq!(rt; pairs[4].0.parts(), [3, 1, 1, 1].as_slice());
    assert_eq!(rt; pairs[5].0.parts(), [2, 2, 2].as_slice());
    assert_eq!(rt; pairs[6].0.parts(), [2, 2, 1, 1].as_slice());
    assert_eq!(rt; pairs[2].1, 1);
    assert_eq!(rt; pairs[3].1, 2);
    assert_eq!(rt; pairs[4].1, 1);
    Ok(())
}

#[test]
fn too_many_from_the_eighth_on(rt: HostRuntime) -> Result<(), Fail> {
    let p = two_one();
    assert!(rt; fillings(rt.alloc(), &p, &p, 7).is_err());
    let refused = product(rt.alloc(), &p, &p, 7);
    assert!(rt; matches!(refused, Err(LrFault::TooMany)));
    assert!(rt; product(rt.alloc(), &p, &p, 8).is_ok());
    let empty = Partition::empty();
    assert!(rt; fillings(rt.alloc(), &p, &empty, 0).is_err());
    Ok(())
}

#[test]
fn product_of_4_2_and_3_2_1(rt: HostRuntime) -> Result<(), Fail> {
    let lambda = Partition::from_parts(&[4, 2]).unwrap_or_default();
    let mu = Partition::from_parts(&[3, 2, 1]).unwrap_or_default();
    assert!(rt; product(rt.alloc(), &lambda, &mu, 35).is_err());
    let pairs = product(rt.alloc(), &lambda, &mu, 36).expect(&rt, "a product");
    assert_eq!(rt; pairs.len(), 27);
    assert_eq!(rt; pairs[0].0.parts(), [7, 4, 1].as_slice());
    assert_eq!(rt; pairs[8].0.parts(), [6, 3, 2, 1].as_slice());
    assert_eq!(rt; pairs[8].1, 3);
    Ok(())
}

#[test]
fn products_with_nothing(rt: HostRuntime) -> Result<(), Fail> {
    let empty = Partition::empty();
    let three = Partition::from_parts(&[3]).unwrap_or_default();
    let pairs = product(rt.alloc(), &empty, &three, 1).expect(&rt, "a product");
    assert_eq!(rt; pairs.len(), 1);
    assert_eq!(rt; pairs[0].0.parts(), [3].as_slice());
    let pairs = product(rt.alloc(), &three, &empty, 1).expect(&rt, "a product");
    assert_eq!(rt; pairs.len(), 1);
    assert_eq!(rt; pairs[0].0.parts(), [3].as_slice());
    let pairs = product(rt.alloc(), &empty, &empty, 1).expect(&rt, "a product");
    assert_eq!(rt; pairs.len(), 1);
    assert_eq!(rt; pairs[0].0.degree(), 0);
    Ok(())
}

// The product of Schur functions is commutative. (Macdonald, Symmetric Functions and Hall Polynomials, I.9)
#[test]
fn products_are_symmetric(rt: HostRuntime) -> Result<(), Fail> {
    for first in 0..13 {
        for second in 0..first.min(12 - first) + 1 {
            for lambda in all_of(rt.alloc(), first)?.as_slice() {
                for mu in all_of(rt.alloc(), second)?.as_slice() {
                    alike(&rt, rt.alloc(), lambda, mu)?;
                }
            }
        }
    }
    Ok(())
}

fn alike(rt: &impl Abort, alloc: Global, lambda: &Partition, mu: &Partition) -> Result<(), Fail>
    requires { degree_of lambda.now + degree_of mu.now ≤ 32 }
{
    let one = product(alloc, lambda, mu, 100_000).expect(rt, "a product");
    let other = product(alloc, mu, lambda, 100_000).expect(rt, "a product");
    assert_eq!(rt; one.len(), other.len());
    for (pair, same) in one.iter().zip(other.as_slice()) {
        assert!(rt; pair.0 == same.0 && pair.1 == same.1);
    }
    Ok(())
}

// Here the order of the chains is not that of their last members.
#[test]
fn chains_are_compared_member_by_member(rt: HostRuntime) -> Result<(), Fail> {
    let lambda = Partition::from_parts(&[3, 2, 1]).unwrap_or_default();
    let found = fillings(rt.alloc(), &lambda, &two_one(), 17).expect(&rt, "fillings");
    assert_eq!(rt; found.len(), 17);
    goes_on(&rt, &found[5], &[4, 3, 1], &[4, 3, 1, 1]);
    goes_on(&rt, &found[6], &[4, 2, 2], &[4, 3, 2]);
    Ok(())
}
