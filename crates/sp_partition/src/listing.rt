// All partitions of a number, and its regular ones.
ghost use Rattle.std.specs.Prelude.{◌≡◌, ◌↔◌, ℕ, ◌+◌, ◌≤◌, List, ◌++◌, map, IfOk, OnOk};
ghost use Rattle.std.specs.List.{AllByRecursion, Contains};
ghost use Rattle.sp_defs.specs.Partition.{IsPartition, IsPartitionOf, IsRegularOf, degree as degree_of, is_regular};
ghost use Rattle.sp_defs.specs.Partition.{Ascending};
ghost use Rattle.sp_defs.specs.Partition.{partitions, partitions_within, regulars};

use crate::{CAPACITY, Partition};
use std::alloc::{AllocError, Global};

/// The partitions of `n`, ascending.
pub fn all_of(alloc: Global, n: u8) -> Result<Vec<Partition>, AllocError>
    requires { n ≤ CAPACITY }
    ensures list { IfOk result (λ list. list.items ≡ partitions n) }
    ensures ascends { IfOk result (λ list. Ascending list.items) }
    ensures each { IfOk result (λ list. (p : List ℕ) → Contains list.items p ↔ IsPartitionOf n p) }
{
    let mut list = Vec::new(alloc);
    push_all(&mut list, &Partition::empty(), n, n)?;
    Ok(list)
}

/// The `e`-regular partitions of `n`, ascending.
pub fn regular_of(alloc: Global, e: u8, n: u8) -> Result<Vec<Partition>, AllocError>
    requires least { 2 ≤ e }
    requires most { n ≤ CAPACITY }
    ensures list { IfOk result (λ list. list.items ≡ regulars e n) }
    ensures ascends { IfOk result (λ list. Ascending list.items) }
    ensures each { IfOk result (λ list. (p : List ℕ) → Contains list.items p ↔ IsRegularOf e n p) }
{
    let mut list = all_of(alloc, n)?;
    list.retain(
        |p: &Partition| -> bool
            requires { 2 ≤ e }
            ensures { result ≡ is_regular e p.now }
        { p.is_regular(e) },
    );
    Ok(list)
}

// Appends the partitions of `rest` with parts at most `most`, each behind the parts of `front`.
fn push_all(
    list: &mut Vec<Partition>,
    front: &Partition,
    most: u8,
    rest: u8,
) -> Result<(), AllocError>
    requires front { IsPartition front.now }
    requires room { degree_of front.now + rest ≤ CAPACITY }
    requires falls { AllByRecursion (λ part. most ≤ part) front.now }
    ensures { OnOk result
        (list.new.items ≡ list.old.items ++ map (λ tail. front.now ++ tail) (partitions_within most rest)) }
{
    if most == 0 {
        if rest == 0 {
            list.push(*front)?;
        }
        return Ok(());
    }
    for times in 0..rest / most + 1 {
        let longer = front.with_run(most, times).unwrap();
        push_all(list, &longer, most - 1, rest - times * most)?;
    }
    Ok(())
}
