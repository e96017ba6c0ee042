// Inverses of triangular grids.
ghost use Rattle.std.specs.Prelude.{◌≡◌, ◌<◌, ◌≤◌, ◌+◌, ◌^◌, ℕ, List, IfOk, OnOk, IsErrOf, length, map};
ghost use Rattle.std.specs.List.{range_with_len};
ghost use Rattle.sp_fock_law.specs.Grid.{cell_of, GridValue};
ghost use Rattle.sp_grid_law.specs.Columns.{AreWithin, IsGreatestPast};
ghost use Rattle.sp_grid_law.specs.Inverses.{IsInverse, IsInverseWithin, IsTriangular};
ghost use Rattle.sp_grid_law.specs.Solved.{inverse_of, solution, solved};
ghost use Rattle.sp_grid_law.specs.Tables.{delta, HasPowersWithin};
ghost use Rattle.sp_inverse.specs.Turned.{AreColumns, CanInvert};

use crate::cells::{push_line, push_negated};
use crate::sums::sum_of_products;
use crate::{GridFault, transpose};
use sp_fock::{FockFault, Grid, sparse_row};
use sp_laurent::Laurent;
use std::alloc::{AllocError, Global};

/// The inverse of a triangular grid, on both sides.
///
/// `TooLarge` where, at some line of a column, the sum of the products of the sizes passes the limit, with the greatest
/// such column. (Lang, Linear Algebra, ch. II, 3)
pub fn invert(alloc: Global, g: &Grid, limit: u128) -> Result<Grid, GridFault>
    requires triangular { IsTriangular g.now }
    requires lines { length g.now.lines ≤ 5604 }
    requires powers { HasPowersWithin 100000 g.now }
    requires least { 1 ≤ limit }
    requires most { limit < 2 ^ 127 }
    // the products of the grid and its inverse, in both orders, are the identity
    ensures inverse { IfOk result (λ h. IsInverse g.now h) }
    // no other grid is an inverse
    ensures only { (h : GridValue) → IsInverse g.now h → IfOk result (λ r. r ≡ h) }
    ensures within { (h : GridValue) → IsInverse g.now h →
        OnOk result (AreWithin g.now.columns (IsInverseWithin limit g.now h)) }
    ensures too_large { (h : GridValue) (at : List ℕ) → IsInverse g.now h →
        IsErrOf result (GridFault.TooLarge at) → IsGreatestPast g.now.columns (IsInverseWithin limit g.now h) at }
{
    let degree = g.degree();
    let columns = columns_of_inverse(alloc, g, limit)?;
    let turned = Grid::from_cells(
        alloc,
        degree,
        Vec::from_slice(alloc, g.lines())?,
        Vec::from_slice(alloc, g.columns())?,
        columns,
    );
    Ok(transpose(alloc, &turned)?)
}

// The cells of the inverse that aren't 0, column by column.
fn columns_of_inverse(
    alloc: Global,
    g: &Grid,
    limit: u128,
) -> Result<Vec<Vec<(usize, Laurent)>>, GridFault>
    requires can { CanInvert g.now }
    requires least { 1 ≤ limit }
    requires most { limit < 2 ^ 127 }
    ensures columns { IfOk result (λ rows.
        AreColumns (length g.now.columns) (length g.now.lines) (solution (cell_of g.now)) rows.items) }
    ensures within { OnOk result (AreWithin g.now.columns (IsInverseWithin limit g.now (inverse_of g.now))) }
    ensures too_large { (at : List ℕ) → IsErrOf result (GridFault.TooLarge at) →
        IsGreatestPast g.now.columns (IsInverseWithin limit g.now (inverse_of g.now)) at }
{
    let mut columns = Vec::new(alloc);
    for column in 0..g.columns().len() {
        match column_of_inverse(alloc, g, column, limit) {
            Ok(cells) => push_line(&mut columns, sparse_row(alloc, cells)?)?,
            Err(FockFault::TooLarge) => {
                return Err(GridFault::TooLarge {
                    at: g.columns()[column],
                });
            }
            Err(FockFault::Memory) => return Err(GridFault::Memory),
        }
    }
    Ok(columns)
}

// A column of the inverse, from the first line to the last.
fn column_of_inverse(
    alloc: Global,
    g: &Grid,
    column: usize,
    limit: u128,
) -> Result<Vec<Laurent>, FockFault>
    requires can { CanInvert g.now }
    requires column { column < length g.now.lines }
    requires least { 1 ≤ limit }
    requires most { limit < 2 ^ 127 }
    ensures cells { IfOk result (λ cells. cells.items ≡ solved (cell_of g.now) column (length g.now.lines)) }
    ensures within { OnOk result (IsInverseWithin limit g.now (inverse_of g.now) column) }
    ensures too_large { IsErrOf result FockFault.TooLarge →
        ¬ IsInverseWithin limit g.now (inverse_of g.now) column }
{
    let mut cells = first_cells(alloc, column)?;
    for line in column + 1..g.lines().len() {
        match sum_of_products(alloc, g.line_cells(line), &cells, limit) {
            Ok(sum) => push_negated(alloc, &mut cells, &sum)?,
            Err(fault) => return Err(fault),
        }
    }
    Ok(cells)
}

// The cells of a column of the inverse down to the diagonal: 0 above it, and 1 on it.
fn first_cells(alloc: Global, column: usize) -> Result<Vec<Laurent>, AllocError>
    ensures { IfOk result (λ cells. cells.items ≡ map (λ line. delta line column) (range_with_len 0 (column + 1))) }
{
    let mut cells = Vec::new(alloc);
    for _line in 0..column {
        cells.push(Laurent::zero(alloc))?;
    }
    cells.push(Laurent::monomial(alloc, 1, 0)?)?;
    Ok(cells)
}
