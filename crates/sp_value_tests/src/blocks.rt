//! Worked blocks.
ghost use Rattle.std.specs.Prelude.{◌≤◌};

use sp_blocks::{Block, blocks, same_block};
use sp_nodes::content;
use sp_partition::{Partition, all_of};
use std::alloc::Global;
use std::test::Fail;

// Whether the block has this core and these ranks.
fn is_block(block: &Block, core: &[u8], ranks: &[usize]) -> bool {
    block.core.parts() == core && block.ranks.as_slice() == ranks
}

// The blocks of all partitions of n.
fn all_blocks(alloc: Global, e: u8, n: u8) -> Result<Vec<Block>, Fail>
    requires e_least { 2 ≤ e }
    requires e_most { e ≤ 64 }
    requires small { n ≤ 30 }
{
    Ok(blocks(alloc, e, &all_of(alloc, n)?)?)
}

#[test]
fn blocks_of_small_degrees(rt: HostRuntime) -> Result<(), Fail> {
    let alloc = rt.alloc();
    let of_four = all_blocks(alloc, 3, 4)?;
    assert_eq!(rt; of_four.len(), 3);
    assert!(rt; is_block(&of_four[0], &[1], &[0, 2, 4]));
    assert!(rt; is_block(&of_four[1], &[2, 1, 1], &[1]));
    assert!(rt; is_block(&of_four[2], &[3, 1], &[3]));
    let of_nought = all_blocks(alloc, 2, 0)?;
    assert_eq!(rt; of_nought.len(), 1);
    assert!(rt; is_block(&of_nought[0], &[], &[0]));
    let of_five = all_blocks(alloc, 2, 5)?;
    assert_eq!(rt; of_five.len(), 2);
    assert!(rt; is_block(&of_five[0], &[1], &[0, 2, 3, 4, 6]));
    assert!(rt; is_block(&of_five[1], &[2, 1], &[1, 5]));
    Ok(())
}

// Three blocks of weight 1 and three of weight 0, whose cores do not ascend.
#[test]
fn blocks_by_their_least_ranks(rt: HostRuntime) -> Result<(), Fail> {
    let of_seven = all_blocks(rt.alloc(), 4, 7)?;
    assert_eq!(rt; of_seven.len(), 6);
    assert!(rt; is_block(&of_seven[0], &[1, 1, 1], &[0, 6, 9, 11]));
    assert!(rt; is_block(&of_seven[1], &[2, 1], &[1, 3, 10, 13]));
    assert!(rt; is_block(&of_seven[2], &[2, 2, 1, 1, 1], &[2]));
    assert!(rt; is_block(&of_seven[3], &[3], &[4, 5, 7, 14]));
    assert!(rt; is_block(&of_seven[4], &[4, 1, 1, 1], &[8]));
    assert!(rt; is_block(&of_seven[5], &[5, 2], &[12]));
    Ok(())
}

#[test]
fn pairs_in_one_block(rt: HostRuntime) -> Result<(), Fail> {
    let four = Partition::from_parts(&[4])?;
    let two_two = Partition::from_parts(&[2, 2])?;
    let three_one = Partition::from_parts(&[3, 1])?;
    let two_one_one = Partition::from_parts(&[2, 1, 1])?;
    assert!(rt; same_block(3, &four, &four));
    assert!(rt; same_block(3, &four, &two_two));
    assert!(rt; !same_block(3, &four, &three_one));
    // both have weight 0
    assert!(rt; !same_block(3, &three_one, &two_one_one));
    Ok(())
}

// Whether each pair of the list is in one block exactly where its contents are equal.
fn are_by_contents(e: u8, list: &[Partition]) -> bool
    requires e_least { 2 ≤ e }
    requires e_most { e ≤ 64 }
{
    for p in list {
        for q in list {
            let equal = content(e, p).as_slice() == content(e, q).as_slice();
            if p.degree() == q.degree() && same_block(e, p, q) != equal {
                return false;
            }
        }
    }
    true
}

#[test]
fn blocks_by_contents(rt: HostRuntime) -> Result<(), Fail> {
    for e in 2..6 {
        for n in 0..8 {
            assert!(rt; are_by_contents(e, &all_of(rt.alloc(), n)?));
        }
    }
    Ok(())
}

#[test]
fn how_many_blocks_of_thirty(rt: HostRuntime) -> Result<(), Fail> {
    let list = all_of(rt.alloc(), 30)?;
    for (e, count) in [(2, 4), (3, 14), (4, 35), (5, 82), (11, 1452)] {
        assert_eq!(rt; blocks(rt.alloc(), e, &list)?.len(), count);
    }
    Ok(())
}
