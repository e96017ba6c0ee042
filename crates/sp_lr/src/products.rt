// Products of Schur functions: how many fillings each partition has.
ghost use Rattle.std.specs.Prelude.{◌≡◌, ◌+◌, ◌≤◌, ◌<◌, ◌++◌, [], IfOk, OnOk, Err, IsTrue, ◌↔◌, length, map, sum};
ghost use Rattle.std.specs.List.Sorted.{IsSorted};
ghost use Rattle.std.specs.List.{AllByRecursion};
ghost use Rattle.sp_defs.specs.Partition.{degree as degree_of, order};
ghost use Rattle.sp_lr_defs.specs.Filling.{IsChain};
ghost use Rattle.sp_lr_defs.specs.Listing.{chains_over, product_pairs};
ghost use Rattle.sp_lr_defs.specs.Strip.{end_from};
ghost use Rattle.sp_lr.specs.Strips.{chains, IsRoom};
ghost use Rattle.sp_lr.specs.Results.{AreMore, IsProduct, DescendingPairs, spread, IsFirst};

use crate::LrFault;
use crate::strips::{append, strips};
use sp_partition::{CAPACITY, Partition};
use std::alloc::{AllocError, Global};

/// The partitions that have a filling over `lambda` with content `mu`, descending, each with the number of its
/// fillings: the product of two Schur functions. (Macdonald, Symmetric Functions and Hall Polynomials, I.9)
///
/// The degrees together are at most 32. `TooMany` only where there are more than `most` fillings of all partitions, and
/// a result only where there are not.
pub fn product(
    alloc: Global,
    lambda: &Partition,
    mu: &Partition,
    most: usize,
) -> Result<Vec<(Partition, u64)>, LrFault>
    requires { degree_of lambda.now + degree_of mu.now ≤ 32 }
    ensures pairs { IfOk result (λ pairs. IsProduct lambda.now mu.now pairs.items) }
    ensures few { IfOk result (λ pairs. sum (map (λ p. p.1) pairs.items) ≤ most) }
    ensures many { (result ≡ Err LrFault.TooMany) → AreMore (IsChain lambda.now mu.now) most }
    ensures listed { IfOk result (λ pairs. pairs.items ≡ product_pairs lambda.now mu.now) }
    ensures within { OnOk result (length (chains_over lambda.now mu.now) ≤ most) }
    ensures past { (result ≡ Err LrFault.TooMany) → most < length (chains_over lambda.now mu.now) }
{
    // the proof needs what the type keeps: a partition of at most the capacity
    prove!(lambda.degree() <= CAPACITY);
    let mut ends = Vec::new(alloc);
    push_ends(
        alloc,
        &mut ends,
        lambda,
        lambda,
        mu.part(1),
        mu.parts(),
        most,
    )?;
    ends.sort()?;
    Ok(counted(alloc, &ends)?)
}

// Appends the end of each chain that goes on from `last` by strips of these sizes.
fn push_ends(
    alloc: Global,
    ends: &mut Vec<Partition>,
    before: &Partition,
    last: &Partition,
    spare: u8,
    sizes: &[u8],
    most: usize,
) -> Result<(), LrFault>
    requires room { IsRoom before.now last.now spare }
    requires small { degree_of last.now + sum sizes.now ≤ 32 }
    requires few_before { length ends.old.items ≤ most }
    ensures ends { OnOk result (ends.new.items
        ≡ ends.old.items ++ map (end_from last.now) (chains before.now last.now spare sizes.now)) }
    ensures few { OnOk result (length ends.new.items ≤ most) }
    ensures many { (result ≡ Err LrFault.TooMany) →
        most < length ends.old.items + length (chains before.now last.now spare sizes.now) }
{
    match sizes {
        [] => {
            if ends.len() == most {
                return Err(LrFault::TooMany);
            }
            append(ends, *last)?;
            Ok(())
        }
        [size, later @ ..] => {
            let shapes = strips(alloc, before, last, spare, *size)?;
            for shape in &shapes {
                push_ends(alloc, ends, last, shape, 0, later, most)?;
            }
            Ok(())
        }
    }
}

// The members of an ascending list, descending, each with how often it stands there.
fn counted(alloc: Global, ends: &[Partition]) -> Result<Vec<(Partition, u64)>, AllocError>
    requires { IsSorted order ends.now }
    ensures spread { IfOk result (λ pairs. ends.now ≡ spread pairs.items) }
    ensures descending { IfOk result (λ pairs. DescendingPairs pairs.items) }
    ensures some { IfOk result (λ pairs. AllByRecursion (λ p. 1 ≤ p.1) pairs.items) }
{
    let mut pairs = Vec::new(alloc);
    let mut count = 0;
    for place in (0..ends.len()).rev() {
        count += 1;
        if is_first(ends, place) {
            pairs.push((ends[place], count))?;
            count = 0;
        }
    }
    Ok(pairs)
}

// Whether the member before this one is another.
fn is_first(ends: &[Partition], place: usize) -> bool
    requires { place < length ends.now }
    ensures { IsTrue result ↔ IsFirst ends.now place }
{
    place == 0 || ends[place - 1] != ends[place]
}
