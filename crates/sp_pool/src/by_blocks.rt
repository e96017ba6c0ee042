// All entries of a context, made by many workers block by block.
ghost use Rattle.std.specs.Prelude.{◌≡◌, ◌≤◌, All, IfOk};
ghost use Rattle.sp_llt.specs.Filled.{IsFilled};
ghost use Rattle.sp_pool.specs.Blocks.{IsBlockOf, AsksStayInBlocks};
ghost use Rattle.sp_pool.specs.Tables.{IsFor};

use crate::block_worker::work_through;
use crate::collecting::{Finished, collect};
use crate::table::{Table, regular_blocks};
use crate::{Gate, Member};
use sp_blocks::Block;
use sp_board::{Board, Look, Seat};
use sp_llt::{Ctx, Entry};
use std::alloc::{AllocError, Global};
use std::sync::{Arc, Wait};
use std::thread;
use std::thread::Threads;

/// The entries of all ranks, ascending, made by workers that share them in a table for each block.
///
/// A worker goes through the blocks in the order of their least ranks. Once no row of a block is left to claim, it goes
/// on to the next, and doesn't wait until the rows of that block are done. The gate is told ranks of the context.
pub fn fill_blocks<R: Threads + Wait + Sync, G: Gate>(
    rt: &R,
    alloc: Global,
    ctx: &Ctx,
    workers: u8,
    gate: &G,
) -> Result<Vec<Arc<Entry>>, AllocError>
    requires { (1 ≤ workers) × (workers ≤ 16) }
    ensures filled { IfOk result (λ rows. IsFilled ctx.now rows.items) }
    // so a worker finds each row that it waits for at a place of its own block
    ensures asks { AsksStayInBlocks ctx.now }
{
    let blocks = regular_blocks(alloc, ctx)?;
    fill_tables(rt, alloc, ctx, &blocks, workers, gate)
}

// The entries of all ranks, by a table for each block.
fn fill_tables<R: Threads + Wait + Sync, G: Gate>(
    rt: &R,
    alloc: Global,
    ctx: &Ctx,
    blocks: &[Block],
    workers: u8,
    gate: &G,
) -> Result<Vec<Arc<Entry>>, AllocError>
    requires workers { (1 ≤ workers) × (workers ≤ 16) }
    requires blocks { All (IsBlockOf ctx.now) blocks.now }
    ensures { IfOk result (λ rows. IsFilled ctx.now rows.items) }
{
    let (tables, hands) = open_tables(alloc, ctx, blocks, workers as usize)?;
    run_workers(rt, alloc, ctx, &tables, hands, gate);
    let spots = spots_in(alloc, blocks, ctx.regulars().len())?;
    let boards = boards_of(alloc, tables)?;
    collect(alloc, ctx, &Boards { spots, boards })
}

// The tables of blocks, and for each worker a seat at each table.
fn open_tables(
    alloc: Global,
    ctx: &Ctx,
    blocks: &[Block],
    workers: usize,
) -> Result<(Vec<Table>, Vec<Vec<Seat>>), AllocError>
    requires blocks { All (IsBlockOf ctx.now) blocks.now }
    requires workers { 1 ≤ workers }
    ensures { IfOk result (λ r. All (IsFor ctx.now) r.0.items) }
{
    let mut tables = Vec::new(alloc);
    let mut hands = empty_hands(alloc, workers)?;
    for block in blocks {
        let (table, seats) = Table::open(alloc, ctx, block, workers)?;
        tables.push(table)?;
        deal(&mut hands, seats)?;
    }
    Ok((tables, hands))
}

// No seats yet for each worker.
fn empty_hands(alloc: Global, workers: usize) -> Result<Vec<Vec<Seat>>, AllocError> {
    let mut hands = Vec::new(alloc);
    for _ in 0..workers {
        hands.push(Vec::new(alloc))?;
    }
    Ok(hands)
}

// Gives each worker one seat.
fn deal(hands: &mut Vec<Vec<Seat>>, seats: Vec<Seat>) -> Result<(), AllocError> {
    for (hand, seat) in hands.iter_mut().zip(seats) {
        hand.push(seat)?;
    }
    Ok(())
}

// Runs a worker for each hand of seats. What a thread that can't be started was to do is done here.
fn run_workers<R: Threads + Wait + Sync, G: Gate>(
    rt: &R,
    alloc: Global,
    ctx: &Ctx,
    tables: &[Table],
    hands: Vec<Vec<Seat>>,
    gate: &G,
)
    requires { All (IsFor ctx.now) tables.now }
{
    thread::scope(
        thread::scope_env(),
        rt,
        |scope|
            requires { All (IsFor ctx.now) tables.now }
        {
            for seats in hands {
                let job = move ||
                    requires { All (IsFor ctx.now) tables.now }
                { work_through(rt, alloc, ctx, tables, seats, gate) };
                if let Err(refused) = scope.spawn(job) {
                    (refused.value)();
                }
            }
        },
    );
}

// The boards of the tables, in their order.
fn boards_of(alloc: Global, tables: Vec<Table>) -> Result<Vec<Board<Member>>, AllocError> {
    let mut boards = Vec::new(alloc);
    for table in tables {
        boards.push(table.into_board())?;
    }
    Ok(boards)
}

// Where a row is looked for: the number of its block, and its place among the block's ranks.
#[derive(Clone, Copy, Debug)]
struct Spot {
    block: usize,
    place: usize,
}

// The boards of all blocks, and the spot of each rank.
#[derive(Drop)]
struct Boards {
    spots: Vec<Spot>,
    boards: Vec<Board<Member>>,
}

impl Finished for Boards {
    fn find(&self, k: usize) -> Option<&Arc<Entry>> {
        let spot = self.spots.get(k)?;
        match self.boards.get(spot.block)?.look(spot.place) {
            Look::Done(member) => Some(&member.entry),
            _ => None,
        }
    }
}

// The spots of the ranks below a number.
fn spots_in(alloc: Global, blocks: &[Block], ranks: usize) -> Result<Vec<Spot>, AllocError> {
    let mut spots = vec![in alloc; Spot { block: 0, place: 0 }; ranks]?;
    for (number, block) in blocks.iter().enumerate() {
        mark(&mut spots, number, block.ranks.as_slice());
    }
    Ok(spots)
}

// Sets the spots of one block's ranks.
fn mark(spots: &mut [Spot], block: usize, ranks: &[usize]) {
    for (place, rank) in ranks.iter().enumerate() {
        if let Some(spot) = spots.get_mut(*rank) {
            *spot = Spot { block, place };
        }
    }
}
