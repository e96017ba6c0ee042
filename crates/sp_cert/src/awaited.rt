// The heads of a certificate, in order.
ghost use Rattle.std.specs.Prelude.{◌≡◌, ◌<◌, ◌≤◌, ◌++◌, [], ℕ, cond, not, map, flat_map, take, length, get_or};
ghost use Rattle.std.specs.Prelude.{IfOk, OnOk};
ghost use Rattle.std.specs.List.{list_any};
ghost use Rattle.sp_defs.specs.Partition.{regulars as all_regulars};
ghost use Rattle.sp_cert.specs.Order.{same_content, leaders};
ghost use Rattle.sp_cert.specs.Counts.{AreContents};
ghost use Rattle.sp_cert.specs.Grammar.{heads_of as all_heads, block_heads, ColumnHead};
ghost use Rattle.sp_cert.specs.Drafts.{head_of, heads_in};

use crate::contents::{contents_of, is_leader, is_same};
use crate::heads::Head;
use arrayvec::ArrayVec;
use sp_partition::Partition;
use std::alloc::{AllocError, Global};

/// In version 1 a column for each e-regular partition, and in version 2 block by block.
pub(crate) fn heads_of(
    alloc: Global,
    version: u8,
    e: u8,
    regulars: &[Partition],
) -> Result<Vec<Head>, AllocError>
    requires e_least { 2 ≤ e }
    requires e_most { e ≤ 64 }
    ensures { (n : ℕ) → regulars.now ≡ all_regulars e n →
        IfOk result (λ heads. map head_of heads.items ≡ all_heads version e n) }
{
    if version == 1 {
        columns_of(alloc, regulars)
    } else {
        blocks_of(alloc, e, regulars)
    }
}

fn columns_of(alloc: Global, regulars: &[Partition]) -> Result<Vec<Head>, AllocError>
    ensures { IfOk result (λ heads. map head_of heads.items ≡ map ColumnHead regulars.now) }
{
    let mut heads = Vec::new(alloc);
    for mu in regulars {
        heads.push(Head::Column(*mu))?;
    }
    Ok(heads)
}

fn blocks_of(alloc: Global, e: u8, regulars: &[Partition]) -> Result<Vec<Head>, AllocError>
    requires e_least { 2 ≤ e }
    requires e_most { e ≤ 64 }
    ensures { (n : ℕ) → regulars.now ≡ all_regulars e n →
        IfOk result (λ heads. map head_of heads.items ≡ flat_map (block_heads e n) (leaders e n)) }
{
    let contents = contents_of(alloc, e, regulars)?;
    let mut heads = Vec::new(alloc);
    for place in 0..regulars.len() {
        push_block_if(&mut heads, regulars, &contents, place)?;
    }
    Ok(heads)
}

// Appends the heads of the block of the partition at a place, if no earlier one has its content.
fn push_block_if(
    heads: &mut Vec<Head>,
    regulars: &[Partition],
    contents: &[ArrayVec<u8, 64>],
    place: usize,
) -> Result<(), AllocError>
    requires place { place < length regulars.now }
    requires counted { length contents.now ≡ length regulars.now }
    ensures { (e : ℕ) → AreContents e regulars.now contents.now →
        OnOk result (map head_of heads.new.items ≡ map head_of heads.old.items ++
        cond (not (list_any (same_content e (get_or regulars.now place [])) (take place regulars.now)))
        (heads_in e regulars.now (get_or regulars.now place [])) []) }
{
    if is_leader(contents, place) {
        push_block(heads, regulars, contents, place)?;
    }
    Ok(())
}

// Appends the heads of the block of the partition at a place.
fn push_block(
    heads: &mut Vec<Head>,
    regulars: &[Partition],
    contents: &[ArrayVec<u8, 64>],
    leader: usize,
) -> Result<(), AllocError>
    requires leader { leader < length regulars.now }
    requires counted { length contents.now ≡ length regulars.now }
    ensures { (e : ℕ) → AreContents e regulars.now contents.now →
        OnOk result (map head_of heads.new.items ≡
        map head_of heads.old.items ++ heads_in e regulars.now (get_or regulars.now leader [])) }
{
    heads.push(Head::Block(regulars[leader]))?;
    for place in 0..regulars.len() {
        if is_same(contents, leader, place) {
            heads.push(Head::Column(regulars[place]))?;
        }
    }
    Ok(())
}
