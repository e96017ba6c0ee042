// Lines and columns of a grid exchanged.
ghost use Rattle.std.specs.Prelude.{◌≡◌, ◌++◌, ℕ, [], IfOk, OnOk, length};
ghost use Rattle.sp_fock_law.specs.Grid.{cell_of};
ghost use Rattle.sp_fock_law.specs.Sparse.{cell_among, IsSparse};
ghost use Rattle.sp_fock.specs.Rows.{cells_at};
ghost use Rattle.sp_grid_law.specs.Tables.{transposed};
ghost use Rattle.sp_inverse.specs.Lines.{line_at};
ghost use Rattle.sp_inverse.specs.Turned.{AreColumns};

use sp_fock::Grid;
use sp_laurent::Laurent;
use std::alloc::{AllocError, Global};

/// The grid with lines and columns exchanged.
pub fn transpose(alloc: Global, g: &Grid) -> Result<Grid, AllocError>
    ensures { IfOk result (λ t. t ≡ transposed g.now) }
{
    let columns = Vec::from_slice(alloc, g.lines())?;
    let lines = Vec::from_slice(alloc, g.columns())?;
    let cells = turned_cells(alloc, g)?;
    Ok(Grid::from_cells(alloc, g.degree(), columns, lines, cells))
}

// The cells that aren't 0, column by column.
fn turned_cells(alloc: Global, g: &Grid) -> Result<Vec<Vec<(usize, Laurent)>>, AllocError>
    ensures { IfOk result (λ rows.
        AreColumns (length g.now.columns) (length g.now.lines) (cell_of g.now) rows.items) }
{
    let mut rows = empty_lines(alloc, g.columns().len())?;
    for line in 0..g.lines().len() {
        add_column(alloc, &mut rows, line, g.line_cells(line))?;
    }
    Ok(rows)
}

// So many lines without cells.
fn empty_lines(alloc: Global, count: usize) -> Result<Vec<Vec<(usize, Laurent)>>, AllocError>
    ensures count { IfOk result (λ rows. length rows.items ≡ count) }
    ensures empty { (k : ℕ) → IfOk result (λ rows. line_at rows.items k ≡ []) }
{
    let mut rows = Vec::new(alloc);
    for _line in 0..count {
        rows.push(Vec::new(alloc))?;
    }
    Ok(rows)
}

// Appends to each line its cell of the next column, unless it is 0.
fn add_column(
    alloc: Global,
    rows: &mut [Vec<(usize, Laurent)>],
    column: usize,
    cells: &[(usize, Laurent)],
) -> Result<(), AllocError>
    requires { IsSparse (length rows.old) cells.now }
    ensures count { OnOk result (length rows.new ≡ length rows.old) }
    ensures rows { (k : ℕ) → OnOk result
        (line_at rows.new k ≡ line_at rows.old k ++ cells_at column (cell_among cells.now k)) }
{
    for cell in cells {
        rows[cell.0].push((column, cell.1.copy(alloc)?))?;
    }
    Ok(())
}
