// The matrices of a degree, and their blocks.
ghost use Rattle.std.specs.Prelude.{◌≡◌, ◌≤◌, ◌<◌, ◌^◌, IfOk, IfSome, IsNone};
ghost use Rattle.sp_defs.specs.Partition.{IsPartition, degree as degree_of};
ghost use Rattle.sp_module_defs.specs.Cells.{IsSquareUnitriangular, cell_at};
ghost use Rattle.sp_fock_law.specs.Grid.{GridValue};
ghost use Rattle.sp_matrix.specs.Agreements.{HasAll};
ghost use Rattle.sp_session.specs.Tables.{IsTold, block_degree, block_table, block_within, crystal_table};
ghost use Rattle.sp_session.specs.Tables.{decomposition_table};

use crate::fillers::Filler;
use sp_abacus::core;
use sp_fock::Grid;
use sp_llt::{Ctx, RowsFault};
use sp_matrix::{block, crystal, decomposition};
use sp_partition::{DEGREE_LIMIT, Partition};
use sp_replies::Refusal;
use std::alloc::{AllocError, Global};

/// A grid, or why there is none.
pub(crate) type Table = Result<Grid, Refusal>;

/// The matrix of a degree. An `Err` is want of memory, here and below.
#[tactic(auto, unfolding(crate::specs::Tables::crystal_table))]
pub(crate) fn crystal_table<F: Filler>(
    alloc: Global,
    limit: u128,
    filler: &F,
    e: u8,
    n: u8,
) -> Result<Table, AllocError>
    requires least { 1 ≤ limit }
    requires most { limit < 2 ^ 127 }
    requires e_least { 2 ≤ e }
    requires e_most { e ≤ 64 }
    requires small { n ≤ DEGREE_LIMIT }
    ensures table { IfOk result (λ table. table ≡ crystal_table limit e n) }
    ensures all { IfOk result (λ table. IfOk table (HasAll e)) }
    ensures triangular { IfOk result (λ table. IfOk table (λ grid. IsSquareUnitriangular grid.columns (cell_at grid))) }
{
    let ctx = Ctx::open_for_all(alloc, e, n, limit)?;
    let rows = filler.fill(alloc, &ctx)?;
    told(crystal(alloc, &ctx, &rows))
}

/// The matrix of a degree at v = 1.
#[tactic(auto, unfolding(crate::specs::Tables::decomposition_table))]
pub(crate) fn decomposition_table<F: Filler>(
    alloc: Global,
    limit: u128,
    filler: &F,
    e: u8,
    n: u8,
) -> Result<Table, AllocError>
    requires least { 1 ≤ limit }
    requires most { limit < 2 ^ 127 }
    requires e_least { 2 ≤ e }
    requires e_most { e ≤ 64 }
    requires small { n ≤ DEGREE_LIMIT }
    ensures { IfOk result (λ table. table ≡ decomposition_table limit e n) }
{
    let ctx = Ctx::open_for_all(alloc, e, n, limit)?;
    let rows = filler.fill(alloc, &ctx)?;
    told(decomposition(alloc, &ctx, &rows))
}

/// The block with this core and this weight, at v = 1.
#[tactic(auto, unfolding(crate::specs::Tables::block_table))]
pub(crate) fn block_table<F: Filler>(
    alloc: Global,
    limit: u128,
    filler: &F,
    e: u8,
    kappa: &Partition,
    w: u64,
) -> Result<Table, AllocError>
    requires least { 1 ≤ limit }
    requires most { limit < 2 ^ 127 }
    requires e_least { 2 ≤ e }
    requires e_most { e ≤ 64 }
    ensures { IfOk result (λ table. table ≡ block_table limit e kappa.now w) }
{
    if core(e, kappa) != *kappa {
        return Ok(Err(Refusal::NotCore));
    }
    match degree_of_block(e, kappa, w) {
        Some(n) => block_within(alloc, limit, filler, e, kappa, n),
        None => Ok(Err(Refusal::PastDegree)),
    }
}

// The nodes of a partition with this core and this weight, if they aren't too many.
fn degree_of_block(e: u8, kappa: &Partition, w: u64) -> Option<u8>
    requires { e ≤ 64 }
    ensures some { IfSome result (λ n. (n ≡ block_degree e kappa.now w) × (n ≤ DEGREE_LIMIT)) }
    ensures none { IsNone result → DEGREE_LIMIT < block_degree e kappa.now w }
{
    let nodes = u128::from(kappa.degree()) + u128::from(e) * u128::from(w);
    if nodes <= u128::from(DEGREE_LIMIT) {
        Some(nodes as u8)
    } else {
        None
    }
}

fn block_within<F: Filler>(
    alloc: Global,
    limit: u128,
    filler: &F,
    e: u8,
    kappa: &Partition,
    n: u8,
) -> Result<Table, AllocError>
    requires least { 1 ≤ limit }
    requires most { limit < 2 ^ 127 }
    requires e_least { 2 ≤ e }
    requires e_most { e ≤ 64 }
    requires small { n ≤ DEGREE_LIMIT }
    ensures { IfOk result (λ table. table ≡ block_within limit e kappa.now n) }
{
    let ctx = Ctx::open_for_all(alloc, e, n, limit)?;
    let rows = filler.fill(alloc, &ctx)?;
    told(block(alloc, &ctx, &rows, kappa))
}

// What is told of a grid.
fn told(grid: Result<Grid, RowsFault>) -> Result<Table, AllocError>
    ensures { IfOk result (IsTold grid) }
{
    match grid {
        Ok(grid) => Ok(Ok(grid)),
        Err(RowsFault::Refused(refused)) => Ok(Err(Refusal::from(refused))),
        Err(RowsFault::Memory) => Err(AllocError),
    }
}
