// The table of one block, which its workers share.
ghost use Rattle.std.specs.Prelude.{◌≡◌, ◌≤◌, ◌<◌, ◌+◌, ℕ, All, Contains, IfOk, get_or, length};
ghost use Rattle.std.specs.List.Sorted.{IsStrictlyIncreasing};
ghost use Rattle.sp_pool.specs.Blocks.{IsBlockOf, IsAtLeastAt, AsksStayInBlocks, ranks_with};

use crate::Member;
use sp_blocks::{Block, blocks};
use sp_board::{Board, Desk, Seat};
use sp_cells::Cells;
use sp_llt::Ctx;
use sp_partition::Partition;
use std::alloc::{AllocError, Global};

/// A block of a context, with a desk and cells for its rows. These go by their places among the block's ranks.
#[derive(Drop)]
pub(crate) struct Table {
    pub(crate) core: Partition,
    pub(crate) ranks: Vec<usize>,
    pub(crate) desk: Desk<Member>,
    pub(crate) cells: Cells<Member>,
    ghost whole: { ranks.items ≡ ranks_with cells.key core },
    ghost rows: { length cells.names ≡ length ranks.items },
}

impl Table {
    /// The table of a block, of which no row is claimed, and its seats, numbered from 0.
    pub(crate) fn open(
        alloc: Global,
        ctx: &Ctx,
        block: &Block,
        workers: usize,
    ) -> Result<(Table, Vec<Seat>), AllocError>
        requires block { IsBlockOf ctx.now block.now }
        requires workers { 1 ≤ workers }
        ensures { IfOk result (λ r. r.0.cells.key ≡ ctx.now) }
    {
        let ranks = block.ranks.as_slice().to_vec(alloc)?;
        let cells = Cells::open(alloc, ctx.key(), ranks.len())?;
        let (desk, seats) = Desk::open(alloc, ctx.key(), ranks.len(), workers)?;
        let core = block.core;
        let table = Table {
            core,
            ranks,
            desk,
            cells,
        };
        Ok((table, seats))
    }

    /// Where a rank stands among those of the block. A place with a greater rank is a later one.
    pub(crate) fn place_of(&self, rank: usize) -> usize
        requires { Contains self.now.ranks.items rank }
        ensures cell { result < length self.now.cells.names }
        ensures at { IsAtLeastAt self.now.ranks.items result rank }
        ensures earlier { (later : ℕ) → IsAtLeastAt self.now.ranks.items later (rank + 1) → result < later }
    {
        place_in(&self.ranks, rank)
    }

    /// The board, once the workers are done.
    pub(crate) fn into_board(self) -> Board<Member> {
        let Table {
            core: _,
            ranks: _ranks,
            desk,
            cells: _cells,
        } = self;
        desk.into_board()
    }
}

/// The blocks of a context.
pub(crate) fn regular_blocks(alloc: Global, ctx: &Ctx) -> Result<Vec<Block>, AllocError>
    ensures known { IfOk result (λ found. All (IsBlockOf ctx.now) found.items) }
    ensures asks { AsksStayInBlocks ctx.now }
{
    blocks(alloc, ctx.key().e, ctx.regulars())
}

// Where a number stands in a list of numbers that ascend.
fn place_in(numbers: &[usize], number: usize) -> usize
    requires rise { IsStrictlyIncreasing numbers.now }
    requires there { Contains numbers.now number }
    ensures within { result < length numbers.now }
    ensures at { get_or numbers.now result 0 ≡ number }
{
    match numbers.binary_search(&number) {
        Ok(place) => place,
        Err(_) => unreachable!(),
    }
}
