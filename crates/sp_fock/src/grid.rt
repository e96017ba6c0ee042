// A table of polynomials whose lines and columns are partitions.
ghost use Rattle.std.specs.Prelude.{◌≡◌, ◌<◌, ◌++◌, length, IfOk, OnOk};
ghost use Rattle.std.specs.List.{AllByRecursion};
ghost use Rattle.sp_fock_law.specs.Grid.{cell_of, IsGrid, row_of};
ghost use Rattle.sp_fock_law.specs.Sparse.{IsSparse, spread};
ghost use Rattle.sp_fock.specs.Cells.{AreSparse, grid_with, sparse_grid, spread_rows, rows_of};
ghost use Rattle.sp_fock.specs.Rows.{cells_at};

use crate::Row;
use sp_laurent::Laurent;
use sp_partition::Partition;
use std::alloc::{AllocError, Global};
use std::marker::Model;

/// A polynomial for each pair of a line and a column, which are partitions of one degree, strictly descending.
#[derive(Drop)]
pub struct Grid {
    degree: u8,
    columns: Vec<Partition>,
    lines: Vec<Partition>,
    // For each line the cells that aren't 0: the places of their columns, ascending, and their polynomials.
    cells: Vec<Vec<(usize, Laurent)>>,
    // What all other cells are.
    zero: Laurent,
}

impl Model for Grid {
    ghost use Rattle.std.specs.Prelude.{◌≡◌, [], length};
    ghost use Rattle.sp_fock_law.specs.Grid.{GridValue, IsGrid};
    ghost use Rattle.sp_fock.specs.Cells.{sparse_grid};
    ghost use Rattle.sp_fock.specs.Rows.{IsKept};

    ghost Value = { GridValue };

    ghost view = { λ a. sparse_grid a.degree a.columns.items a.lines.items a.cells.items };

    ghost invariant = { λ a. IsKept a.degree a.columns.items a.lines.items a.cells.items a.zero };
}

impl Grid {
    /// The grid with these columns, lines and cells, which are given line by line.
    pub fn build(
        alloc: Global,
        degree: u8,
        columns: Vec<Partition>,
        lines: Vec<Partition>,
        cells: Vec<Vec<Laurent>>,
    ) -> Result<Grid, AllocError>
        requires { IsGrid (grid_with degree columns.items lines.items cells.items) }
        ensures { IfOk result (λ g. g ≡ grid_with degree columns.items lines.items cells.items) }
    {
        let cells = sparse_rows(alloc, columns.len(), cells)?;
        Ok(Grid::from_cells(alloc, degree, columns, lines, cells))
    }

    /// The grid with these columns, lines and cells, and with 0 elsewhere. It takes no memory.
    ///
    /// For each line the cells that aren't 0 are given, each behind the place of its column, by ascending places.
    pub fn from_cells(
        alloc: Global,
        degree: u8,
        columns: Vec<Partition>,
        lines: Vec<Partition>,
        cells: Vec<Vec<(usize, Laurent)>>,
    ) -> Grid
        requires grid { IsGrid (sparse_grid degree columns.items lines.items cells.items) }
        requires sparse { AreSparse (length columns.items) cells.items }
        ensures { result ≡ sparse_grid degree columns.items lines.items cells.items }
    {
        Grid {
            degree,
            columns,
            lines,
            cells,
            zero: Laurent::zero(alloc),
        }
    }

    /// The degree of its partitions.
    pub fn degree(&self) -> u8
        ensures value { result ≡ self.now.degree }
        ensures grid { IsGrid self.now }
    {
        self.degree
    }

    /// The partitions of the columns, strictly descending.
    pub fn columns(&self) -> &[Partition]
        ensures value { result.now ≡ self.now.columns }
        ensures grid { IsGrid self.now }
    {
        &self.columns
    }

    /// The partitions of the lines, strictly descending.
    pub fn lines(&self) -> &[Partition]
        ensures value { result.now ≡ self.now.lines }
        ensures grid { IsGrid self.now }
    {
        &self.lines
    }

    /// The cells of a line that aren't 0, each behind the place of its column, by ascending places. Lines and places
    /// are counted from 0.
    pub fn line_cells(&self, line: usize) -> &[(usize, Laurent)]
        requires { line < length self.now.lines }
        ensures value { spread (length self.now.columns) result.now ≡ row_of self.now line }
        ensures sparse { IsSparse (length self.now.columns) result.now }
    {
        &self.cells[line]
    }

    /// The cells of a line, counted from 0: one for each column. It takes no memory.
    pub fn row(&self, line: usize) -> Row<'_>
        requires { line < length self.now.lines }
        ensures value { result ≡ row_of self.now line }
        ensures width { length result ≡ length self.now.columns }
    {
        Row {
            cells: self.line_cells(line),
            place: 0,
            width: self.columns.len(),
            zero: &self.zero,
        }
    }

    /// The cell of a line and a column, both counted from 0.
    pub fn cell(&self, line: usize, column: usize) -> &Laurent
        requires line { line < length self.now.lines }
        requires column { column < length self.now.columns }
        ensures { result.now ≡ cell_of self.now line column }
    {
        let cells = self.line_cells(line);
        match cells.binary_search_by_key(&column, |cell| cell.0) {
            Ok(place) => &cells[place].1,
            Err(_) => &self.zero,
        }
    }
}

// The cells of each row that aren't 0.
fn sparse_rows(
    alloc: Global,
    width: usize,
    rows: Vec<Vec<Laurent>>,
) -> Result<Vec<Vec<(usize, Laurent)>>, AllocError>
    requires { AllByRecursion (λ row. length row ≡ width) (rows_of rows.items) }
    ensures value { IfOk result (λ sparse. spread_rows width sparse.items ≡ rows_of rows.items) }
    ensures sparse { IfOk result (λ sparse. AreSparse width sparse.items) }
{
    let mut sparse = Vec::new(alloc);
    for row in rows {
        sparse.push(sparse_row(alloc, row)?)?;
    }
    Ok(sparse)
}

/// The cells of a row that aren't 0, each behind its place.
pub fn sparse_row(alloc: Global, row: Vec<Laurent>) -> Result<Vec<(usize, Laurent)>, AllocError>
    ensures value { IfOk result (λ cells. spread (length row.items) cells.items ≡ row.items) }
    ensures sparse { IfOk result (λ cells. IsSparse (length row.items) cells.items) }
{
    let mut cells = Vec::new(alloc);
    for (place, cell) in row.into_iter().enumerate() {
        push_cell(&mut cells, place, cell)?;
    }
    Ok(cells)
}

/// Appends a cell behind its place, unless it is 0.
pub fn push_cell(
    cells: &mut Vec<(usize, Laurent)>,
    place: usize,
    cell: Laurent,
) -> Result<(), AllocError>
    ensures { OnOk result (cells.new.items ≡ cells.old.items ++ cells_at place cell) }
{
    if !cell.terms().is_empty() {
        cells.push((place, cell))?;
    }
    Ok(())
}
