// The dimensions of the simple modules, from the greatest column down.
ghost use Rattle.std.specs.Prelude.{◌≡◌, ◌^◌, ◌<◌, ◌≤◌, ◌↔◌, ℕ, List, IfOk, OnOk, IfSome, IsNone, IsErrOf};
ghost use Rattle.std.specs.Prelude.{length, [], ◌∷◌, ◌++◌};
ghost use Rattle.std.specs.List.{zip};
ghost use Rattle.sp_fock_law.specs.Grid.{IsGrid};
ghost use Rattle.sp_module_defs.specs.Cells.{IsSquareUnitriangular, cell_at, place};
ghost use Rattle.sp_dims.specs.Solution.{IsWithin, IsPast};
ghost use Rattle.sp_dims.specs.Equation.{next_dim as next_dim_of, known_weight};

use crate::equation::solve;
use crate::{DimsFault, specht_dim};
use sp_fock::Grid;
use sp_partition::{Partition, place_in};
use std::alloc::{AllocError, Global};

/// The dimensions of the simple modules of the columns, in their order.
///
/// `TooLarge` where a dimension weight passes the limit, with the greatest column at which one does: that of a column
/// is the dimension of its Specht module and the absolute values of its cells at v = 1, each times that of the
/// dimension, over the greater columns.
pub fn simple_dims(alloc: Global, grid: &Grid, limit: u128) -> Result<Vec<i128>, DimsFault>
    requires triangular { IsSquareUnitriangular grid.now.columns (cell_at grid.now) }
    requires least { 1 ≤ limit }
    requires most { limit < 2 ^ 127 }
    ensures dims { IfOk result (λ dims. IsWithin limit grid.now.columns (cell_at grid.now) dims.items) }
    ensures too_large { (at : List ℕ) → IsErrOf result (DimsFault.TooLarge at) →
        IsPast limit grid.now.columns (cell_at grid.now) at }
{
    let mut dims = Vec::new(alloc);
    for column in grid.columns() {
        match next_dim(grid, column, &dims, limit) {
            Some(dim) => push(&mut dims, dim)?,
            None => return Err(DimsFault::TooLarge { at: *column }),
        }
    }
    Ok(dims)
}

fn push(dims: &mut Vec<i128>, dim: i128) -> Result<(), AllocError>
    ensures { OnOk result (dims.new.items ≡ dims.old.items ++ dim ∷ []) }
{
    dims.push(dim)?;
    Ok(())
}

// The dimension for a column, when those of the greater ones are known. None where its weight passes the limit.
fn next_dim(grid: &Grid, column: &Partition, known: &[i128], limit: u128) -> Option<i128>
    requires line { place grid.now.lines column.now < length grid.now.lines }
    requires few { length known.now ≤ length grid.now.columns }
    requires most { limit < 2 ^ 127 }
    ensures some { IfSome result (λ dim. dim ≡
        next_dim_of (cell_at grid.now) (zip grid.now.columns known.now) column.now) }
    ensures none { IsNone result ↔
        (limit < known_weight (cell_at grid.now) (zip grid.now.columns known.now) column.now) }
{
    solve(
        grid,
        line_of(grid, column),
        known,
        specht_dim(column),
        limit,
    )
}

// Where the line of a partition is.
fn line_of(grid: &Grid, column: &Partition) -> usize
    requires { place grid.now.lines column.now < length grid.now.lines }
    ensures place { result ≡ place grid.now.lines column.now }
    ensures grid { IsGrid grid.now }
{
    place_in(grid.lines(), column).unwrap_or(0)
}
