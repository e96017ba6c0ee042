ghost use Rattle.std.specs.Prelude.{◌≡◌, length};
ghost use Rattle.sp_llt.specs.Place.{labels};

use crate::{Gate, Still, fill, fill_alone, fill_into};
use sp_cells::Cells;
use sp_core::{Key, Piece};
use sp_llt::{Ctx, Entry, first_refused};
use sp_partition::Partition;
use std::alloc::{AllocError, Global};
use std::sync::atomic::{AtomicU64, Ordering};
use std::sync::{Arc, Wait};
use std::test::Fail;
use std::thread;
use std::thread::Threads;

/// One entry with its shares, as a line.
fn line(alloc: Global, row: &Entry, out: &mut Vec<u8>) -> Result<(), Fail> {
    row.mu().print(alloc, out)?;
    out.extend_from_slice(b": ")?;
    match row.regular_row() {
        Some(vector) => vector.print(alloc, out)?,
        None => out.extend_from_slice(b"too large")?,
    }
    for share in row.shares() {
        out.extend_from_slice(b", ")?;
        share.alpha.print(alloc, out)?;
    }
    out.extend_from_slice(b"\n")?;
    Ok(())
}

/// The entries, the greatest partition first.
pub(crate) fn text(alloc: Global, rows: &[Arc<Entry>]) -> Result<Vec<u8>, Fail> {
    let mut out = Vec::new(alloc);
    for row in rows.iter().rev() {
        line(alloc, row, &mut out)?;
    }
    Ok(out)
}

fn degree_five() -> &'static [u8] {
    b"5: [5] + v[3,1^2] + v^2[1^5], 1\n4,1: [4,1] + v[2,1^3]\n3,2: [3,2] + v[3,1^2] + v^2[2^2,1]\n"
}

#[test]
fn all_rows_of_degree_five(rt: HostRuntime) -> Result<(), Fail> {
    let alloc = rt.alloc();
    let whole = fill_alone(alloc, &Ctx::open(alloc, 2, 5, 3)?)?;
    assert_eq!(rt; text(alloc, &whole)?.as_slice(), degree_five());
    let refused =
        b"5: too large\n4,1: [4,1] + v[2,1^3]\n3,2: [3,2] + v[3,1^2] + v^2[2^2,1]\n".as_slice();
    let small = fill_alone(alloc, &Ctx::open(alloc, 2, 5, 2)?)?;
    assert_eq!(rt; text(alloc, &small)?.as_slice(), refused);
    let empty = fill_alone(alloc, &Ctx::open(alloc, 2, 0, 1)?)?;
    assert_eq!(rt; text(alloc, &empty)?.as_slice(), b"-: [-]\n".as_slice());
    Ok(())
}

#[test]
fn one_and_many_workers_make_the_same_rows(rt: HostRuntime) -> Result<(), Fail> {
    let alloc = rt.alloc();
    let ctx = Ctx::open(alloc, 2, 5, 3)?;
    for workers in [1u8, 8, 16] {
        let rows = fill(&rt, alloc, &ctx, workers, &Still)?;
        assert_eq!(rt; text(alloc, &rows)?.as_slice(), degree_five());
    }
    Ok(())
}

pub(crate) const CLAIM_TURNS: u64 = 1_000_000_000;

const HOLD_TURNS: u64 = 100_000_000;

/// Waits until the number is reached, and gives up after the turns.
pub(crate) fn reaches(count: &AtomicU64, least: u64, turns: u64) -> bool {
    for _ in 0..turns {
        if count.load(Ordering::SeqCst) >= least {
            return true;
        }
    }
    false
}

// Holds the first publish until a second worker has claimed.
#[derive(Drop)]
struct HoldsForASecond {
    claims: AtomicU64,
    publishes: AtomicU64,
    seen: AtomicU64,
}

impl HoldsForASecond {
    fn new() -> HoldsForASecond {
        HoldsForASecond {
            claims: AtomicU64::new(0),
            publishes: AtomicU64::new(0),
            seen: AtomicU64::new(0),
        }
    }
}

impl Gate for HoldsForASecond {
    fn at_claim(&self, _worker: usize, _row: usize) {
        self.claims.fetch_add(1, Ordering::SeqCst);
    }

    fn at_publish(&self, _worker: usize, _row: usize) {
        let first = self.publishes.fetch_add(1, Ordering::SeqCst) == 0;
        if first && reaches(&self.claims, 2, CLAIM_TURNS) {
            self.seen.store(1, Ordering::SeqCst);
        }
    }
}

// Holds row 0 until row 2, which needs it, was claimed, and for more turns. Row 2 must not be published before.
#[derive(Drop)]
struct HoldsANeededRow {
    claimed: AtomicU64,
    published: AtomicU64,
    held: AtomicU64,
}

impl HoldsANeededRow {
    fn new() -> HoldsANeededRow {
        HoldsANeededRow {
            claimed: AtomicU64::new(0),
            published: AtomicU64::new(0),
            held: AtomicU64::new(0),
        }
    }
}

impl Gate for HoldsANeededRow {
    fn at_claim(&self, _worker: usize, row: usize) {
        if row == 2 {
            self.claimed.store(1, Ordering::SeqCst);
        }
    }

    fn at_publish(&self, _worker: usize, row: usize) {
        if row == 2 {
            self.published.store(1, Ordering::SeqCst);
        }
        if row == 0
            && reaches(&self.claimed, 1, CLAIM_TURNS)
            && !reaches(&self.published, 1, HOLD_TURNS)
        {
            self.held.store(1, Ordering::SeqCst);
        }
    }
}

#[test]
fn a_second_worker_claims_before_the_first_publishes(rt: HostRuntime) -> Result<(), Fail> {
    let alloc = rt.alloc();
    let ctx = Ctx::open(alloc, 2, 5, 3)?;
    let gate = HoldsForASecond::new();
    let rows = fill(&rt, alloc, &ctx, 2, &gate)?;
    assert_eq!(rt; gate.seen.load(Ordering::SeqCst), 1);
    assert_eq!(rt; text(alloc, &rows)?.as_slice(), degree_five());
    let gate = HoldsForASecond::new();
    let cells = Cells::open(alloc, ctx.key(), ctx.regulars().len())?;
    let rows = fill_into(&rt, alloc, &ctx, 2, &gate, &cells)?;
    assert_eq!(rt; gate.seen.load(Ordering::SeqCst), 1);
    assert_eq!(rt; text(alloc, &rows)?.as_slice(), degree_five());
    Ok(())
}

#[test]
fn a_worker_waits_for_the_row_that_it_needs(rt: HostRuntime) -> Result<(), Fail> {
    let alloc = rt.alloc();
    let ctx = Ctx::open(alloc, 2, 5, 3)?;
    let gate = HoldsANeededRow::new();
    let rows = fill(&rt, alloc, &ctx, 2, &gate)?;
    assert_eq!(rt; gate.held.load(Ordering::SeqCst), 1);
    assert_eq!(rt; text(alloc, &rows)?.as_slice(), degree_five());
    let gate = HoldsANeededRow::new();
    let cells = Cells::open(alloc, ctx.key(), ctx.regulars().len())?;
    let rows = fill_into(&rt, alloc, &ctx, 2, &gate, &cells)?;
    assert_eq!(rt; gate.held.load(Ordering::SeqCst), 1);
    assert_eq!(rt; text(alloc, &rows)?.as_slice(), degree_five());
    Ok(())
}

// Whether what a peek found is row k, or no row where none was seen before.
fn is_as_before(found: Option<&Entry>, k: usize, seen: &mut Vec<bool>) -> bool {
    match found {
        Some(row) => {
            if let Some(before) = seen.get_mut(k) {
                *before = true;
            }
            row.number() == k
        }
        None => !matches!(seen.get(k), Some(true)),
    }
}

// Peeks at all rows in turn, and counts what should not be.
fn peek_all(
    cells: &Cells<Entry>,
    alloc: Global,
    rows: usize,
    faults: &AtomicU64,
) -> Result<(), AllocError>
    requires { length cells.now.names ≡ rows }
{
    let mut pass = cells.pass(alloc)?;
    let mut seen = vec![in alloc; false; rows]?;
    for _ in 0..100_000u32 {
        for k in 0..rows {
            if !is_as_before(cells.peek(&mut pass, k), k, &mut seen) {
                faults.fetch_add(1, Ordering::SeqCst);
            }
        }
    }
    Ok(())
}

fn peek_or_fail(cells: &Cells<Entry>, alloc: Global, rows: usize, faults: &AtomicU64)
    requires { length cells.now.names ≡ rows }
{
    if peek_all(cells, alloc, rows, faults).is_err() {
        faults.fetch_add(1, Ordering::SeqCst);
    }
}

// Fills by four workers while three other threads peek.
fn fill_under_peeks<R: Threads + Wait + Sync>(
    rt: &R,
    alloc: Global,
    ctx: &Ctx,
    cells: &Cells<Entry>,
    faults: &AtomicU64,
) -> Result<Vec<Arc<Entry>>, AllocError>
    requires key { cells.now.key ≡ ctx.now }
    requires rows { length cells.now.names ≡ length (labels ctx.now) }
{
    let rows = ctx.regulars().len();
    thread::scope(
        thread::scope_env(),
        rt,
        |scope|
            requires { (cells.now.key ≡ ctx.now) × (length cells.now.names ≡ length (labels ctx.now))
                × (length cells.now.names ≡ rows) }
        {
            for _ in 0..3 {
                let job = move ||
                    requires { length cells.now.names ≡ rows }
                { peek_or_fail(cells, alloc, rows, faults) };
                if scope.spawn(job).is_err() {
                    faults.fetch_add(1, Ordering::SeqCst);
                }
            }
            fill_into(rt, alloc, ctx, 4, &Still, cells)
        },
    )
}

// The entries in the cells as a new pass finds them, the greatest partition first.
fn text_in(alloc: Global, cells: &Cells<Entry>, rows: usize) -> Result<Vec<u8>, Fail>
    requires { length cells.now.names ≡ rows }
{
    let mut pass = cells.pass(alloc)?;
    let mut out = Vec::new(alloc);
    for k in 0..rows {
        match cells.peek(&mut pass, rows - 1 - k) {
            Some(row) => line(alloc, row, &mut out)?,
            None => return Err(Fail::from("a row is missing")),
        }
    }
    Ok(out)
}

#[test]
fn rows_that_were_seen_stay(rt: HostRuntime) -> Result<(), Fail> {
    let alloc = rt.alloc();
    let ctx = Ctx::open(alloc, 2, 8, 1000)?;
    let cells = Cells::open(alloc, ctx.key(), ctx.regulars().len())?;
    let faults = AtomicU64::new(0);
    let rows = fill_under_peeks(&rt, alloc, &ctx, &cells, &faults)?;
    assert_eq!(rt; faults.load(Ordering::SeqCst), 0);
    let alone = text(alloc, &fill_alone(alloc, &ctx)?)?;
    assert_eq!(rt; text(alloc, &rows)?.as_slice(), alone.as_slice());
    let found = text_in(alloc, &cells, ctx.regulars().len())?;
    assert_eq!(rt; found.as_slice(), alone.as_slice());
    Ok(())
}

#[test]
fn entries_tell_key_and_rank(rt: HostRuntime) -> Result<(), Fail> {
    let alloc = rt.alloc();
    let ctx = Ctx::open(alloc, 2, 5, 2)?;
    let rows = fill_alone(alloc, &ctx)?;
    assert_eq!(rt; rows.len(), 3);
    for k in 0..rows.len() {
        assert_eq!(rt; rows[k].number(), k);
        assert!(rt; rows[k].is_of(&ctx, k));
        assert!(rt;
            rows[k].key()
                == Key {
                    e: 2,
                    degree: 5,
                    limit: 2
                }
        );
    }
    match first_refused(&rows) {
        Some(refused) => assert!(rt; refused.mu == Partition::from_parts(&[5])?),
        None => assert!(rt; false),
    }
    Ok(())
}
