// Inverses of the square parts of matrices, Cartan matrices, and simple modules as sums of Specht modules.
ghost use Rattle.std.specs.Prelude.{◌≡◌, ◌++◌, ◌≤◌, ◌<◌, ◌/◌, ◌^◌, Err, IfOk, OnOk, length};
ghost use Rattle.sp_cartan.specs.Square.{square_of};
ghost use Rattle.sp_defs.specs.Partition.{degree as degree_of};
ghost use Rattle.sp_fock_law.specs.Grid.{GridValue};
ghost use Rattle.sp_grid_law.specs.Inverses.{IsInverse};
ghost use Rattle.sp_grid_law.specs.Solved.{inverse_of};
ghost use Rattle.sp_grid_law.specs.Tables.{HasPowersWithin};
ghost use Rattle.sp_laurent.specs.Held.{power_limit};
ghost use Rattle.sp_matrix.specs.Matrix.{matrix};
ghost use Rattle.sp_module_defs.specs.Cells.{IsSquareUnitriangular, cell_at};
ghost use Rattle.sp_session.specs.Inverses.{IsMade, cartan_table, cartan_within, character_text, inverse_table};
ghost use Rattle.sp_session.specs.Inverses.{inverse_within, simple_text};

use crate::fillers::Filler;
use crate::tables::{Table, crystal_table as crystal_of, decomposition_table as decomposition_of};
use sp_cartan::{cartan_matrix, inverse_matrix, simple_character};
use sp_fock::Grid;
use sp_inverse::GridFault;
use sp_partition::{DEGREE_LIMIT, Partition};
use sp_replies::{Refusal, put_refusal};
use std::alloc::{AllocError, Global};

/// The inverse of the square part of the matrix of a degree. An `Err` is want of memory, here and below.
#[tactic(auto, unfolding(crate::specs::Inverses::inverse_table))]
pub(crate) fn inverse_table<F: Filler>(
    alloc: Global,
    limit: u128,
    filler: &F,
    e: u8,
    n: u8,
) -> Result<Table, AllocError>
    requires least { 1 ≤ limit }
    requires most { limit < 2 ^ 127 }
    requires e_least { 2 ≤ e }
    requires e_most { e ≤ 64 }
    requires small { n ≤ DEGREE_LIMIT }
    ensures table { IfOk result (λ table. table ≡ inverse_table limit e n) }
    // the products of the square part and its inverse, in both orders, are the identity
    ensures inverse { IfOk result (λ table. IfOk table (IsInverse (square_of (matrix e n)))) }
{
    match crystal_of(alloc, limit, filler, e, n)? {
        Ok(grid) => inverse_made(alloc, limit, &grid),
        Err(why) => Ok(Err(why)),
    }
}

fn inverse_made(alloc: Global, limit: u128, grid: &Grid) -> Result<Table, AllocError>
    requires least { 1 ≤ limit }
    requires most { limit < 2 ^ 127 }
    requires triangular { IsSquareUnitriangular grid.now.columns (cell_at grid.now) }
    requires few { length grid.now.columns ≤ 5604 }
    ensures table { IfOk result (λ table. table ≡ inverse_within limit grid.now) }
    ensures inverse { IfOk result (λ table. IfOk table (IsInverse (square_of grid.now))) }
{
    told(inverse_matrix(alloc, grid, limit))
}

/// The Cartan matrix of a degree.
#[tactic(auto, unfolding(crate::specs::Inverses::cartan_table))]
pub(crate) fn cartan_table<F: Filler>(
    alloc: Global,
    limit: u128,
    filler: &F,
    e: u8,
    n: u8,
) -> Result<Table, AllocError>
    requires least { 1 ≤ limit }
    requires most { limit < 2 ^ 127 }
    requires e_least { 2 ≤ e }
    requires e_most { e ≤ 64 }
    requires small { n ≤ DEGREE_LIMIT }
    ensures { IfOk result (λ table. table ≡ cartan_table limit e n) }
{
    match decomposition_of(alloc, limit, filler, e, n)? {
        Ok(grid) => cartan_made(alloc, limit, &grid),
        Err(why) => Ok(Err(why)),
    }
}

fn cartan_made(alloc: Global, limit: u128, grid: &Grid) -> Result<Table, AllocError>
    requires least { 1 ≤ limit }
    requires most { limit < 2 ^ 127 }
    requires powers { HasPowersWithin (power_limit / 2) grid.now }
    ensures { IfOk result (λ table. table ≡ cartan_within limit grid.now) }
{
    told(cartan_matrix(alloc, grid, limit))
}

// What is told of a grid that may be too large.
fn told(grid: Result<Grid, GridFault>) -> Result<Table, AllocError>
    ensures { IfOk result (IsMade grid) }
{
    match grid {
        Ok(grid) => Ok(Ok(grid)),
        Err(fault) => fault_told(&fault),
    }
}

fn fault_told(fault: &GridFault) -> Result<Table, AllocError>
    ensures { IfOk result (IsMade (Err fault.now)) }
{
    match fault {
        GridFault::TooLarge { at } => Ok(Err(Refusal::LargeColumn { column: *at })),
        GridFault::Memory => Err(AllocError),
    }
}

/// The simple module of a partition as a sum of Specht modules, as a line. An `Err` leaves `out` unspecified.
#[tactic(auto, unfolding(crate::specs::Inverses::simple_text))]
pub(crate) fn put_simple<F: Filler>(
    alloc: Global,
    limit: u128,
    filler: &F,
    e: u8,
    mu: &Partition,
    out: &mut Vec<u8>,
) -> Result<(), AllocError>
    requires least { 1 ≤ limit }
    requires most { limit < 2 ^ 127 }
    requires e_least { 2 ≤ e }
    requires e_most { e ≤ 64 }
    requires small { degree_of mu.now ≤ DEGREE_LIMIT }
    ensures { OnOk result (out.new.items ≡ out.old.items ++ simple_text limit e mu.now) }
{
    match inverse_table(alloc, limit, filler, e, mu.degree())? {
        Ok(inverse) => put_character(alloc, &inverse, mu, out),
        Err(why) => put_refusal(alloc, &why, out),
    }
}

fn put_character(
    alloc: Global,
    inverse: &Grid,
    mu: &Partition,
    out: &mut Vec<u8>,
) -> Result<(), AllocError>
    ensures { OnOk result (out.new.items ≡ out.old.items ++ character_text mu.now inverse.now) }
{
    simple_character(alloc, inverse, mu)?.print(alloc, out)?;
    out.extend_from_slice(b"\n")
}
