// The cells of a table that aren't 0.
ghost use Rattle.std.specs.Prelude.{◌≡◌, IfOk, OnOk, length, map};
ghost use Rattle.sp_defs.specs.Laurent.{Laurent as LaurentValue};
ghost use Rattle.sp_defs.specs.Power.{vector_of};
ghost use Rattle.sp_fock_law.specs.Sparse.{IsSparse, spread};
ghost use Rattle.sp_fock.specs.Cells.{AreSparse, spread_rows};
ghost use Rattle.sp_matrix.specs.Cursors.{ArePassed, Descend, IsAt};
ghost use Rattle.sp_matrix.specs.Scope.{shown};
ghost use Rattle.sp_matrix.specs.Walk.{line_cells, vectors_of};

use crate::cursors::{end_at, ends_of};
use crate::scope::Form;
use sp_fock::{Vector, push_cell};
use sp_laurent::Laurent;
use sp_partition::Partition;
use std::alloc::{AllocError, Global};

// The cells that aren't 0, line by line, each behind the place of its column. The lines descend, and each row is
// walked once, from its end.
pub(crate) fn cells(
    alloc: Global,
    rows: &[&Vector],
    lines: &[Partition],
    form: Form,
) -> Result<Vec<Vec<(usize, Laurent)>>, AllocError>
    requires { Descend lines.now }
    ensures value { IfOk result (λ cells. spread_rows (length rows.now) cells.items ≡
        map (line_cells form (vectors_of rows.now)) lines.now) }
    ensures sparse { IfOk result (λ cells. AreSparse (length rows.now) cells.items) }
{
    let mut ends = ends_of(alloc, rows)?;
    let mut cells = Vec::new(alloc);
    for line in lines {
        cells.push(cells_of(alloc, rows, &mut ends, line, form)?)?;
    }
    Ok(cells)
}

// The cells of a line that aren't 0, by ascending places. What is behind the ends stands at greater lines, before and
// after.
fn cells_of(
    alloc: Global,
    rows: &[&Vector],
    ends: &mut [usize],
    line: &Partition,
    form: Form,
) -> Result<Vec<(usize, Laurent)>, AllocError>
    requires { ArePassed line.now (vectors_of rows.now) ends.old }
    ensures value { IfOk result (λ cells. spread (length rows.now) cells.items ≡
        line_cells form (vectors_of rows.now) line.now) }
    ensures sparse { IfOk result (λ cells. IsSparse (length rows.now) cells.items) }
    ensures ends { OnOk result (ArePassed line.now (vectors_of rows.now) ends.new) }
{
    let mut cells = Vec::new(alloc);
    for place in 0..rows.len() {
        let row = rows[place];
        let end = end_at(row, ends[place], line);
        ends[place] = end;
        let cell = cell(alloc, row, end, line, form)?;
        push_cell(&mut cells, place, cell)?;
    }
    Ok(cells)
}

// The cell of a line and a column.
fn cell(
    alloc: Global,
    row: &Vector,
    end: usize,
    line: &Partition,
    form: Form,
) -> Result<Laurent, AllocError>
    requires { IsAt line.now row.now end }
    ensures { IfOk result (λ cell. cell ≡ shown form (vector_of row.now.entries line.now)) }
{
    let pairs = row.pairs();
    if end > 0 && pairs[end - 1].0 == *line {
        shown_as(alloc, &pairs[end - 1].1, form)
    } else {
        Ok(Laurent::zero(alloc))
    }
}
// What a cell shows of its coefficient.
fn shown_as(alloc: Global, coefficient: &Laurent, form: Form) -> Result<Laurent, AllocError>
    ensures { IfOk result (λ cell. cell ≡ shown form coefficient.now) }
{
    match form {
        Form::Polynomial => coefficient.copy(alloc),
        Form::Constant => {
            let _size = coefficient.size();
            Laurent::monomial(alloc, coefficient.at_one(), 0)
        }
    }
}
