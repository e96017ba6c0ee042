// How far the powers in a grid lie from 0.
ghost use Rattle.std.specs.Prelude.{◌≤◌, ◌↔◌, IfOk, IfSome, IsNone, IsTrue, unsigned_abs};
ghost use Rattle.std.specs.List.{AllByRecursion};
ghost use Rattle.sp_defs.specs.Within.{PowersWithin};
ghost use Rattle.sp_grid_law.specs.Columns.{AreWithin, IsColumnWithin, IsGreatestPast};

use crate::transpose;
use sp_fock::Grid;
use sp_laurent::Laurent;
use sp_partition::Partition;
use std::alloc::{AllocError, Global};

/// The greatest column that has a power further from 0 than `most`, if there is one.
pub fn column_past(alloc: Global, g: &Grid, most: u32) -> Result<Option<Partition>, AllocError>
    ensures none { IfOk result (λ past. IsNone past → AreWithin g.now.columns (IsColumnWithin most g.now)) }
    ensures some { IfOk result (λ past. IfSome past (IsGreatestPast g.now.columns (IsColumnWithin most g.now))) }
{
    let turned = transpose(alloc, g)?;
    for column in 0..g.columns().len() {
        if !are_within(turned.line_cells(column), most) {
            return Ok(Some(g.columns()[column]));
        }
    }
    Ok(None)
}

// Whether every power in the cells is from -most to most.
fn are_within(cells: &[(usize, Laurent)], most: u32) -> bool
    ensures { IsTrue result ↔ AllByRecursion (λ c. PowersWithin most c.1) cells.now }
{
    for cell in cells {
        if !is_within(&cell.1, most) {
            return false;
        }
    }
    true
}

// Whether every power is from -most to most.
fn is_within(p: &Laurent, most: u32) -> bool
    ensures { IsTrue result ↔ PowersWithin most p.now }
{
    for term in p.terms() {
        if !is_near(term.0, most) {
            return false;
        }
    }
    true
}

fn is_near(power: i32, most: u32) -> bool
    ensures { IsTrue result ↔ (unsigned_abs power ≤ most) }
{
    power.unsigned_abs() <= most
}
