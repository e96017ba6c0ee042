// The cells of a grid, with its lines and columns in another order.
ghost use Rattle.std.specs.Prelude.{◌≡◌, ◌<◌, ◌++◌, IfOk, OnOk, length, map, vec_len};
ghost use Rattle.std.specs.List.{AllByRecursion};
ghost use Rattle.sp_fock_law.specs.Grid.{cell_of, row_of};
ghost use Rattle.sp_fock_law.specs.Sparse.{IsSparse, spread};
ghost use Rattle.sp_fock.specs.Cells.{AreSparse, spread_rows};
ghost use Rattle.sp_fock.specs.Rows.{cells_at, polynomial_of};

use sp_fock::Grid;
use sp_laurent::Laurent;
use sp_partition::Partition;
use std::alloc::{AllocError, Global};

// The cells that aren't 0, each behind the place of its column, for lines and columns of the grid that are given by
// their places.
pub(crate) fn moved_cells(
    alloc: Global,
    grid: &Grid,
    lines: &[(Partition, usize)],
    columns: &[(Partition, usize)],
) -> Result<Vec<Vec<(usize, Laurent)>>, AllocError>
    requires lines { AllByRecursion (λ t. t.1 < length grid.now.lines) lines.now }
    requires columns { AllByRecursion (λ t. t.1 < length grid.now.columns) columns.now }
    ensures value { IfOk result (λ cells. spread_rows (length columns.now) cells.items ≡
        map (λ line. map (λ column. cell_of grid.now line.1 column.1) columns.now) lines.now) }
    ensures sparse { IfOk result (λ cells. AreSparse (length columns.now) cells.items) }
{
    let mut cells = Vec::new(alloc);
    for line in lines {
        cells.push(moved_line(alloc, grid, line.1, columns)?)?;
    }
    Ok(cells)
}

// The cells of a line that aren't 0. The line is laid out once, so that each column is one step.
fn moved_line(
    alloc: Global,
    grid: &Grid,
    line: usize,
    columns: &[(Partition, usize)],
) -> Result<Vec<(usize, Laurent)>, AllocError>
    requires line { line < length grid.now.lines }
    requires columns { AllByRecursion (λ t. t.1 < length grid.now.columns) columns.now }
    ensures value { IfOk result (λ cells.
        spread (length columns.now) cells.items ≡ map (λ column. cell_of grid.now line column.1) columns.now) }
    ensures sparse { IfOk result (λ cells. IsSparse (length columns.now) cells.items) }
{
    let whole = whole_line(alloc, grid, line)?;
    let mut cells = Vec::new(alloc);
    for place in 0..columns.len() {
        let cell = whole[columns[place].1];
        push_copy(alloc, &mut cells, place, cell)?;
    }
    Ok(cells)
}

// All cells of a line.
fn whole_line<'a>(
    alloc: Global,
    grid: &'a Grid,
    line: usize,
) -> Result<Vec<&'a Laurent>, AllocError>
    requires { line < length grid.now.lines }
    ensures value { IfOk result (λ whole. map polynomial_of whole.items ≡ row_of grid.now line) }
    ensures width { IfOk result (λ whole. vec_len whole ≡ length grid.now.columns) }
{
    let mut whole = Vec::with_capacity(alloc, grid.columns().len())?;
    for cell in grid.row(line) {
        whole.push(cell)?;
    }
    Ok(whole)
}

// Appends a copy of the cell of the next column, unless it is 0.
fn push_copy(
    alloc: Global,
    cells: &mut Vec<(usize, Laurent)>,
    place: usize,
    cell: &Laurent,
) -> Result<(), AllocError>
    ensures { OnOk result (cells.new.items ≡ cells.old.items ++ cells_at place cell.now) }
{
    if !cell.terms().is_empty() {
        cells.push((place, cell.copy(alloc)?))?;
    }
    Ok(())
}
