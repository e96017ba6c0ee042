// The part of a grid whose lines are its columns.
ghost use Rattle.std.specs.Prelude.{◌≡◌, ◌≤◌, ◌<◌, IfOk, length, map};
ghost use Rattle.sp_module_defs.specs.Cells.{cell_at, place};
ghost use Rattle.sp_fock.specs.Cells.{AreSparse, spread_rows};
ghost use Rattle.sp_cartan.specs.Square.{HasSquare, square_of};

use sp_fock::Grid;
use sp_laurent::Laurent;
use sp_partition::Partition;
use std::alloc::{AllocError, Global};

/// The grid with the columns of `g` as columns and as lines, and the same cells. Each column has to be a line too.
pub fn square(alloc: Global, g: &Grid) -> Result<Grid, AllocError>
    requires { HasSquare g.now }
    ensures { IfOk result (λ square. square ≡ square_of g.now) }
{
    let columns = Vec::from_slice(alloc, g.columns())?;
    let lines = Vec::from_slice(alloc, g.columns())?;
    let cells = square_cells(alloc, g)?;
    Ok(Grid::from_cells(alloc, g.degree(), columns, lines, cells))
}

// The cells that aren't 0 in the lines that are columns. Lines and columns descend, so that one walk down the lines
// finds them.
fn square_cells(alloc: Global, g: &Grid) -> Result<Vec<Vec<(usize, Laurent)>>, AllocError>
    requires { HasSquare g.now }
    ensures value { IfOk result (λ rows. spread_rows (length g.now.columns) rows.items ≡
        map (λ lambda. map (cell_at g.now lambda) g.now.columns) g.now.columns) }
    ensures sparse { IfOk result (λ rows. AreSparse (length g.now.columns) rows.items) }
{
    let mut rows = Vec::new(alloc);
    let mut line = 0;
    for column in g.columns() {
        line = place_from(g.lines(), line, column);
        rows.push(copies(alloc, g.line_cells(line))?)?;
    }
    Ok(rows)
}

// The place of a partition among the lines, where it isn't before `from`.
fn place_from(lines: &[Partition], from: usize, p: &Partition) -> usize
    requires from { from ≤ place lines.now p.now }
    requires line { place lines.now p.now < length lines.now }
    ensures { result ≡ place lines.now p.now }
{
    let mut line = from;
    while lines[line] != *p {
        line += 1;
    }
    line
}

// The same cells in memory of their own.
fn copies(alloc: Global, cells: &[(usize, Laurent)]) -> Result<Vec<(usize, Laurent)>, AllocError>
    ensures { IfOk result (λ copies. copies.items ≡ cells.now) }
{
    let mut copies = Vec::new(alloc);
    for cell in cells {
        copies.push((cell.0, cell.1.copy(alloc)?))?;
    }
    Ok(copies)
}
