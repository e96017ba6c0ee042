// A block, and whether two partitions are in one.
ghost use Rattle.std.specs.Prelude.{◌≡◌, ◌≤◌, ◌↔◌, ◌∷◌, [], ◌++◌, IsTrue, OnOk};
ghost use Rattle.sp_defs.specs.Partition.{degree as degree_of};
ghost use Rattle.sp_block_law.specs.Blocks.{InOneBlock};

use sp_abacus::core;
use sp_partition::{Items, Partition};
use std::alloc::{AllocError, Global};
use std::mem;

/// The partitions of a list that have one core.
#[derive(Debug, Drop)]
pub struct Block {
    /// Their core.
    pub core: Partition,
    /// Their places in the list, counted from 0, ascending.
    pub ranks: Items<usize>,
}

/// Whether two partitions of one degree are in one block: whether they have the same core. It takes no memory.
/// (Nakayama, 1940; James and Kerber, The Representation Theory of the Symmetric Group, 6.1.21)
pub fn same_block(e: u8, p: &Partition, q: &Partition) -> bool
    requires e_least { 2 ≤ e }
    requires e_most { e ≤ 64 }
    requires one_degree { degree_of p.now ≡ degree_of q.now }
    ensures { IsTrue result ↔ InOneBlock e p.now q.now }
{
    core(e, p) == core(e, q)
}

// Adds a rank behind those of the block. An `Err` leaves the block without ranks.
pub(crate) fn add_rank(alloc: Global, block: &mut Block, rank: usize) -> Result<(), AllocError>
    ensures { OnOk result (block.new ≡ record block.old { ranks = block.old.ranks ++ rank ∷ [] }) }
{
    let mut ranks = mem::replace(&mut block.ranks, Items::of(Vec::new(alloc))).into_vec();
    ranks.push(rank)?;
    block.ranks = Items::of(ranks);
    Ok(())
}
