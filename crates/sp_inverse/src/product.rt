// Products of grids.
ghost use Rattle.std.specs.Prelude.{◌≡◌, ◌<◌, ◌≤◌, ◌/◌, ◌^◌, ℕ, List, IfOk, OnOk, IsErrOf, length};
ghost use Rattle.std.specs.List.{AllByRecursion};
ghost use Rattle.sp_defs.specs.Within.{PowersWithin};
ghost use Rattle.sp_laurent.specs.Held.{power_limit};
ghost use Rattle.sp_grid_law.specs.Tables.{HasPowersWithin};
ghost use Rattle.sp_grid_law.specs.Columns.{AreWithin, IsGreatestPast};
ghost use Rattle.sp_grid_law.specs.Products.{IsProductWithin, product, product_cell};
ghost use Rattle.sp_grid_law.specs.Lines.{IsLine, line_size, line_sum};
ghost use Rattle.sp_inverse.specs.Turned.{AreColumns};

use crate::cells::{push_line, whole_line};
use crate::sums::sum_of_products;
use crate::{GridFault, transpose};
use sp_fock::{FockFault, Grid, push_cell};
use sp_laurent::Laurent;
use std::alloc::Global;

/// The product of two grids, where the columns of `a` are the lines of `b`.
///
/// `TooLarge` where, at some line of a column, the sum of the products of the sizes passes the limit, with the greatest
/// such column. (Lang, Linear Algebra, ch. II, 3)
pub fn multiply(alloc: Global, a: &Grid, b: &Grid, limit: u128) -> Result<Grid, GridFault>
    requires one_degree { a.now.degree ≡ b.now.degree }
    requires meet { a.now.columns ≡ b.now.lines }
    requires first_powers { HasPowersWithin (power_limit / 2) a.now }
    requires second_powers { HasPowersWithin (power_limit / 2) b.now }
    requires least { 1 ≤ limit }
    requires most { limit < 2 ^ 127 }
    ensures product { IfOk result (λ p. p ≡ product a.now b.now) }
    ensures within { OnOk result (AreWithin b.now.columns (IsProductWithin limit a.now b.now)) }
    ensures too_large { (at : List ℕ) → IsErrOf result (GridFault.TooLarge at) →
        IsGreatestPast b.now.columns (IsProductWithin limit a.now b.now) at }
{
    let columns = columns_of_product(alloc, a, b, limit)?;
    let turned = Grid::from_cells(
        alloc,
        a.degree(),
        Vec::from_slice(alloc, a.lines())?,
        Vec::from_slice(alloc, b.columns())?,
        columns,
    );
    Ok(transpose(alloc, &turned)?)
}

// The cells of the product that aren't 0, column by column.
fn columns_of_product(
    alloc: Global,
    a: &Grid,
    b: &Grid,
    limit: u128,
) -> Result<Vec<Vec<(usize, Laurent)>>, GridFault>
    requires meet { a.now.columns ≡ b.now.lines }
    requires first_powers { HasPowersWithin (power_limit / 2) a.now }
    requires second_powers { HasPowersWithin (power_limit / 2) b.now }
    requires least { 1 ≤ limit }
    requires most { limit < 2 ^ 127 }
    ensures columns { IfOk result (λ rows.
        AreColumns (length b.now.columns) (length a.now.lines) (product_cell a.now b.now) rows.items) }
    ensures within { OnOk result (AreWithin b.now.columns (IsProductWithin limit a.now b.now)) }
    ensures too_large { (at : List ℕ) → IsErrOf result (GridFault.TooLarge at) →
        IsGreatestPast b.now.columns (IsProductWithin limit a.now b.now) at }
{
    let turned = transpose(alloc, b)?;
    let mut columns = Vec::new(alloc);
    for column in 0..b.columns().len() {
        let factors = whole_line(alloc, &turned, column)?;
        match column_of_product(alloc, a, &factors, limit) {
            Ok(cells) => push_line(&mut columns, cells)?,
            Err(FockFault::TooLarge) => {
                return Err(GridFault::TooLarge {
                    at: b.columns()[column],
                });
            }
            Err(FockFault::Memory) => return Err(GridFault::Memory),
        }
    }
    Ok(columns)
}

// A column of a product, whose second factor has this column.
fn column_of_product(
    alloc: Global,
    a: &Grid,
    factors: &[Laurent],
    limit: u128,
) -> Result<Vec<(usize, Laurent)>, FockFault>
    requires cells { HasPowersWithin (power_limit / 2) a.now }
    requires factors { AllByRecursion (PowersWithin (power_limit / 2)) factors.now }
    requires least { 1 ≤ limit }
    requires most { limit < 2 ^ 127 }
    ensures cells { IfOk result (λ cells. IsLine (length a.now.lines) (line_sum a.now factors.now) cells.items) }
    ensures within { OnOk result
        ((line : ℕ) → line < length a.now.lines → line_size a.now factors.now line ≤ limit) }
    ensures too_large { IsErrOf result FockFault.TooLarge →
        ¬ ((line : ℕ) → line < length a.now.lines → line_size a.now factors.now line ≤ limit) }
{
    let mut cells = Vec::new(alloc);
    for line in 0..a.lines().len() {
        match sum_of_products(alloc, a.line_cells(line), factors, limit) {
            Ok(cell) => push_cell(&mut cells, line, cell)?,
            Err(fault) => return Err(fault),
        }
    }
    Ok(cells)
}
