// Rows made block by block.
ghost use Rattle.std.specs.Prelude.{◌≡◌, ◌<◌, length};
ghost use Rattle.sp_llt.specs.Place.{labels};

use crate::block_worker::work;
use crate::table::{Table, regular_blocks};
use crate::tests::{CLAIM_TURNS, reaches, text};
use crate::worker::show;
use crate::{Gate, Member, Still, fill_alone, fill_blocks};
use sp_board::Look;
use sp_cells::Parcel;
use sp_llt::{Ctx, entry_alone};
use std::alloc::{AllocError, Global};
use std::sync::Arc;
use std::sync::atomic::{AtomicU64, Ordering};
use std::test::Fail;

#[test]
fn blocks_have_the_same_rows(rt: HostRuntime) -> Result<(), Fail> {
    let alloc = rt.alloc();
    for e in 2..4 {
        for degree in 5..11 {
            let ctx = Ctx::open(alloc, e, degree, 1_000_000)?;
            let alone = text(alloc, &fill_alone(alloc, &ctx)?)?;
            for workers in [1u8, 8, 16] {
                let rows = fill_blocks(&rt, alloc, &ctx, workers, &Still)?;
                assert_eq!(rt; text(alloc, &rows)?.as_slice(), alone.as_slice());
            }
        }
    }
    Ok(())
}

#[test]
fn a_row_past_the_limit_is_refused(rt: HostRuntime) -> Result<(), Fail> {
    let alloc = rt.alloc();
    let rows = fill_blocks(&rt, alloc, &Ctx::open(alloc, 2, 5, 2)?, 3, &Still)?;
    let refused =
        b"5: too large\n4,1: [4,1] + v[2,1^3]\n3,2: [3,2] + v[3,1^2] + v^2[2^2,1]\n".as_slice();
    assert_eq!(rt; text(alloc, &rows)?.as_slice(), refused);
    Ok(())
}

// Holds the publish of rank 0 until rank 1, which is of another block, was claimed.
#[derive(Drop)]
struct HoldsForAnotherBlock {
    claimed: AtomicU64,
    seen: AtomicU64,
}

impl Gate for HoldsForAnotherBlock {
    fn at_claim(&self, _worker: usize, row: usize) {
        if row == 1 {
            self.claimed.store(1, Ordering::SeqCst);
        }
    }

    fn at_publish(&self, _worker: usize, row: usize) {
        if row == 0 && reaches(&self.claimed, 1, CLAIM_TURNS) {
            self.seen.store(1, Ordering::SeqCst);
        }
    }
}

#[test]
fn the_next_block_is_begun_before_a_block_is_done(rt: HostRuntime) -> Result<(), Fail> {
    let alloc = rt.alloc();
    let ctx = Ctx::open(alloc, 3, 4, 1000)?;
    let gate = HoldsForAnotherBlock {
        claimed: AtomicU64::new(0),
        seen: AtomicU64::new(0),
    };
    let rows = fill_blocks(&rt, alloc, &ctx, 2, &gate)?;
    assert_eq!(rt; gate.seen.load(Ordering::SeqCst), 1);
    let alone = text(alloc, &fill_alone(alloc, &ctx)?)?;
    assert_eq!(rt; text(alloc, &rows)?.as_slice(), alone.as_slice());
    Ok(())
}

// The ranks that were claimed, each one more, as the digits of a number.
#[derive(Drop)]
struct WritesClaims {
    claims: AtomicU64,
}

impl Gate for WritesClaims {
    fn at_claim(&self, _worker: usize, row: usize) {
        let before = self.claims.load(Ordering::SeqCst);
        let digit = (row as u64).wrapping_add(1);
        self.claims.store(
            before.wrapping_mul(10).wrapping_add(digit),
            Ordering::SeqCst,
        );
    }

    fn at_publish(&self, _worker: usize, _row: usize) {}
}

// The blocks of degree 4 at e = 3 have the ranks 0; 1 and 3; 2.
#[test]
fn one_worker_goes_through_the_blocks_in_order(rt: HostRuntime) -> Result<(), Fail> {
    let alloc = rt.alloc();
    let gate = WritesClaims {
        claims: AtomicU64::new(0),
    };
    let ctx = Ctx::open(alloc, 3, 4, 1000)?;
    let rows = fill_blocks(&rt, alloc, &ctx, 1, &gate)?;
    assert_eq!(rt; rows.len(), 4);
    assert_eq!(rt; gate.claims.load(Ordering::SeqCst), 1243);
    Ok(())
}

// Shows the row of a rank, of any block, in the cell of a table's first place.
fn show_first(alloc: Global, ctx: &Ctx, table: &Table, rank: usize) -> Result<(), AllocError>
    requires rank { rank < length (labels ctx.now) }
    requires table { table.now.cells.key ≡ ctx.now }
    requires row { 0 < length table.now.cells.names }
{
    let entry = Arc::new(alloc, entry_alone(alloc, ctx, rank)?)?;
    let core = table.core;
    let piece = Arc::new(
        alloc,
        Member {
            entry,
            core,
            place: 0,
        },
    )?;
    let parcel = Parcel::pack(alloc, piece)?;
    let mut pass = table.cells.pass(alloc)?;
    show(&table.cells, &mut pass, 0, parcel);
    Ok(())
}

// Of the ranks 0 and 2, which are a block, the second asks for the first. In its cell lies the row of rank 1.
#[test]
fn a_piece_of_another_rank_is_passed_over(rt: HostRuntime) -> Result<(), Fail> {
    let alloc = rt.alloc();
    let ctx = Ctx::open(alloc, 2, 5, 3)?;
    assert_eq!(rt; ctx.regulars().len(), 3);
    let blocks = regular_blocks(alloc, &ctx)?;
    assert_eq!(rt; blocks.len(), 2);
    let (table, seats) = Table::open(alloc, &ctx, &blocks[0], 1)?;
    assert_eq!(rt; table.ranks.len(), 2);
    show_first(alloc, &ctx, &table, 1)?;
    for seat in seats {
        work(&rt, alloc, &ctx, &table, seat, &Still);
    }
    let board = table.into_board();
    match board.look(1) {
        Look::Done(member) => assert!(rt; member.entry.is_of(&ctx, 2)),
        _ => return Err(Fail::from("a row is missing")),
    }
    Ok(())
}
