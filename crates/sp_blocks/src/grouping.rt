// The partitions of a list, grouped by their cores.
ghost use Rattle.std.specs.Prelude.{◌≡◌, ◌≤◌, length, IfOk, OnOk};
ghost use Rattle.sp_blocks.specs.Blocks.{core_at, blocks_of, ArePlaced};
ghost use Rattle.sp_blocks.specs.Indexed.{with_rank, Indexed};

use crate::block::{Block, add_rank};
use sp_abacus::core;
use sp_partition::{Items, Partition};
use std::alloc::{AllocError, Global};
use std::collections::BTreeMap;

/// The partitions of a list, grouped by their cores: its blocks, where they have one degree.
///
/// Each place of the list stands in exactly one block, that of its partition's core. The blocks are ordered by their
/// least ranks. Each core is worked out once, and its block is found by a search.
pub fn blocks(alloc: Global, e: u8, list: &[Partition]) -> Result<Vec<Block>, AllocError>
    requires e_least { 2 ≤ e }
    requires e_most { e ≤ 64 }
    ensures value { IfOk result (λ found. found.items ≡ blocks_of e list.now) }
    ensures placed { IfOk result (λ found. ArePlaced (core_at e list.now) (length list.now) found.items) }
{
    let mut found = Vec::new(alloc);
    // where the block of a core stands
    let mut places = BTreeMap::new(alloc);
    for (rank, partition) in list.iter().enumerate() {
        put(alloc, &mut found, &mut places, core(e, partition), rank)?;
    }
    Ok(found)
}

// Adds a rank to the block of its core, which is a new one, behind the others, where there is none yet.
fn put(
    alloc: Global,
    found: &mut Vec<Block>,
    places: &mut BTreeMap<Partition, usize>,
    core: Partition,
    rank: usize,
) -> Result<(), AllocError>
    requires { Indexed places.old found.old.items }
    ensures found { OnOk result (found.new.items ≡ with_rank core rank found.old.items) }
    ensures indexed { OnOk result (Indexed places.new found.new.items) }
{
    match places.get(&core).copied() {
        Some(place) => add_rank(alloc, &mut found[place], rank),
        None => {
            places.insert(core, found.len())?;
            let ranks = Items::of(vec![in alloc; rank]?);
            found.push(Block { core, ranks })?;
            Ok(())
        }
    }
}
