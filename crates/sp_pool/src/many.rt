// All entries of a context, made by many workers.
ghost use Rattle.std.specs.Prelude.{◌≡◌, ◌≤◌, IfOk, length};
ghost use Rattle.sp_llt.specs.Place.{labels};
ghost use Rattle.sp_llt.specs.Filled.{IsFilled};

use crate::Gate;
use crate::collecting::{Finished, collect};
use crate::worker::work;
use sp_board::{Board, Desk, Look, Seat};
use sp_cells::Cells;
use sp_llt::{Ctx, Entry};
use std::alloc::{AllocError, Global};
use std::sync::{Arc, Wait};
use std::thread;
use std::thread::Threads;

/// The entries of all ranks, ascending, made by workers that share them in cells of their own.
pub fn fill<R: Threads + Wait + Sync, G: Gate>(
    rt: &R,
    alloc: Global,
    ctx: &Ctx,
    workers: u8,
    gate: &G,
) -> Result<Vec<Arc<Entry>>, AllocError>
    requires { (1 ≤ workers) × (workers ≤ 16) }
    ensures { IfOk result (λ rows. IsFilled ctx.now rows.items) }
{
    let cells = Cells::open(alloc, ctx.key(), ctx.regulars().len())?;
    fill_into(rt, alloc, ctx, workers, gate, &cells)
}

/// The entries of all ranks, ascending, made by workers that show each one in its cell.
pub fn fill_into<R: Threads + Wait + Sync, G: Gate>(
    rt: &R,
    alloc: Global,
    ctx: &Ctx,
    workers: u8,
    gate: &G,
    cells: &Cells<Entry>,
) -> Result<Vec<Arc<Entry>>, AllocError>
    requires workers { (1 ≤ workers) × (workers ≤ 16) }
    requires key { cells.now.key ≡ ctx.now }
    requires rows { length cells.now.names ≡ length (labels ctx.now) }
    ensures { IfOk result (λ rows. IsFilled ctx.now rows.items) }
{
    let (desk, seats) = Desk::open(alloc, ctx.key(), ctx.regulars().len(), workers as usize)?;
    run_workers(rt, alloc, ctx, &desk, cells, seats, gate);
    collect(alloc, ctx, &desk.into_board())
}

// Runs a worker on each seat. What a thread that can't be started was to do is done here.
fn run_workers<R: Threads + Wait + Sync, G: Gate>(
    rt: &R,
    alloc: Global,
    ctx: &Ctx,
    desk: &Desk<Entry>,
    cells: &Cells<Entry>,
    seats: Vec<Seat>,
    gate: &G,
)
    requires key { cells.now.key ≡ ctx.now }
    requires rows { length cells.now.names ≡ length (labels ctx.now) }
{
    thread::scope(
        thread::scope_env(),
        rt,
        |scope|
            requires { (cells.now.key ≡ ctx.now) × (length cells.now.names ≡ length (labels ctx.now)) }
        {
            for seat in seats {
                let job = move ||
                    requires { (cells.now.key ≡ ctx.now) × (length cells.now.names ≡ length (labels ctx.now)) }
                { work(rt, alloc, ctx, desk, cells, seat, gate) };
                if let Err(refused) = scope.spawn(job) {
                    (refused.value)();
                }
            }
        },
    );
}

impl Finished for Board<Entry> {
    fn find(&self, k: usize) -> Option<&Arc<Entry>> {
        match self.look(k) {
            Look::Done(piece) => Some(piece),
            _ => None,
        }
    }
}
