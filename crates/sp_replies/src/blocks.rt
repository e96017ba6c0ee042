// Answers on the blocks of a degree.
ghost use Rattle.std.specs.Prelude.{◌≡◌, ◌++◌, ◌≤◌, ◌<◌, ℕ, List, [], OnOk, count_by, flat_map, length, slice_index_or};
ghost use Rattle.std.specs.List.{AllByRecursion};
ghost use Rattle.std.specs.List.Sorted.{IsPermutation, IsSortedByKey};
ghost use Rattle.std.specs.Fmt.{decimal};
ghost use Rattle.sp_defs.specs.Partition.{IsPartitionOf, is_regular, order, partitions};
ghost use Rattle.sp_defs.specs.Abacus.{core as core_of, weight as weight_of};
ghost use Rattle.sp_replies.specs.Blocks.{IsBlock, block_line, block_weight, blocks_text, counts_line};

use crate::words::Word;
use sp_base::put_number;
use sp_blocks::{Block, blocks};
use sp_partition::{CAPACITY, Partition, all_of};
use std::alloc::{AllocError, Global};

/// A line for each core of a partition of `n`, descending by degree, then lexicographically: the core, the weight of
/// its block, and how many `e`-regular partitions and how many partitions of `n` have it. An `Err` leaves `out`
/// unspecified.
pub fn put_blocks(alloc: Global, e: u8, n: u8, out: &mut Vec<u8>) -> Result<(), AllocError>
    requires e_least { 2 ≤ e }
    requires e_most { e ≤ 64 }
    requires n_most { n ≤ CAPACITY }
    ensures { OnOk result (out.new.items ≡ out.old.items ++ blocks_text e n) }
{
    let list = all_of(alloc, n)?;
    let mut found = blocks(alloc, e, &list)?;
    sort_by_core(&mut found);
    found.reverse();
    put_lines(alloc, e, n, &list, &found, out)
}

/// The weight that is written with a core is the weight of each partition that has it.
/// (James and Kerber, The Representation Theory of the Symmetric Group, 2.7)
pub fn block_weight_law()
    ensures { (e n : ℕ) (p : List ℕ) → 2 ≤ e → IsPartitionOf n p → block_weight e n (core_of e p) ≡ weight_of e p }
{}

// The blocks ascend by their cores.
fn sort_by_core(found: &mut Vec<Block>)
    ensures permutation { IsPermutation found.old.items found.new.items }
    ensures sorted { IsSortedByKey (λ b. b.core) order found.new.items }
{
    found.sort_unstable_by_key(|block| block.core);
}

// A line for each of these blocks of the partitions of n.
fn put_lines(
    alloc: Global,
    e: u8,
    n: u8,
    list: &[Partition],
    found: &[Block],
    out: &mut Vec<u8>,
) -> Result<(), AllocError>
    requires e_least { 2 ≤ e }
    requires listed { list.now ≡ partitions n }
    requires each { AllByRecursion (IsBlock e n) found.now }
    ensures { OnOk result (out.new.items ≡ out.old.items ++ flat_map (λ b. block_line e n b.core) found.now) }
{
    for block in found {
        put_block(alloc, e, n, list, block, out)?;
    }
    Ok(())
}

// The line of a block of the partitions of n.
fn put_block(
    alloc: Global,
    e: u8,
    n: u8,
    list: &[Partition],
    block: &Block,
    out: &mut Vec<u8>,
) -> Result<(), AllocError>
    requires e_least { 2 ≤ e }
    requires listed { list.now ≡ partitions n }
    requires is_block { IsBlock e n block.now }
    ensures { OnOk result (out.new.items ≡ out.old.items ++ block_line e n block.now.core) }
{
    let weight = (n - block.core.degree()) / e;
    let ranks = block.ranks.as_slice();
    let regular = regular_count(e, list, ranks);
    put_counts(alloc, &block.core, weight, regular, ranks.len(), out)
}

// How many of the partitions at these places are e-regular.
fn regular_count(e: u8, list: &[Partition], ranks: &[usize]) -> usize
    requires e_least { 2 ≤ e }
    requires within { AllByRecursion (λ k. k < length list.now) ranks.now }
    ensures { result ≡ count_by (λ k. is_regular e (slice_index_or list.now k [])) ranks.now }
{
    let mut count = 0;
    for rank in ranks {
        if list[*rank].is_regular(e) {
            count += 1;
        }
    }
    count
}

// A core, a weight, and how many e-regular and how many partitions there are.
fn put_counts(
    alloc: Global,
    core: &Partition,
    weight: u8,
    regular: usize,
    all: usize,
    out: &mut Vec<u8>,
) -> Result<(), AllocError>
    ensures { OnOk result (out.new.items ≡ out.old.items ++ counts_line core.now weight regular all) }
{
    core.put(alloc, out)?;
    out.extend_from_slice(b" weight ")?;
    weight.put(alloc, out)?;
    out.extend_from_slice(b" regular ")?;
    put_count(alloc, regular, out)?;
    out.extend_from_slice(b" of ")?;
    put_count(alloc, all, out)?;
    out.extend_from_slice(b"\n")
}

fn put_count(alloc: Global, count: usize, out: &mut Vec<u8>) -> Result<(), AllocError>
    ensures { OnOk result (out.new.items ≡ out.old.items ++ decimal count) }
{
    put_number(alloc, out, count as i128)
}
