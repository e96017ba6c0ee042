// The inverse of the square part of a matrix.
ghost use Rattle.std.specs.Prelude.{◌≡◌, ◌≤◌, ◌<◌, ◌^◌, ℕ, List, IfOk, OnOk, IsErrOf, length, None as Nothing};
ghost use Rattle.std.specs.Prelude.{Some as Just};
ghost use Rattle.sp_fock_law.specs.Grid.{GridValue};
ghost use Rattle.sp_module_defs.specs.Cells.{IsSquareUnitriangular, cell_at};
ghost use Rattle.sp_grid_law.specs.Inverses.{IsInverse};
ghost use Rattle.sp_grid_law.specs.Solved.{inverse_of};
ghost use Rattle.sp_cartan.specs.Refusals.{inverse_past};
ghost use Rattle.sp_cartan.specs.Square.{square_of};

use crate::square;
use sp_fock::Grid;
use sp_inverse::{GridFault, column_past, invert};
use std::alloc::Global;

/// How far from 0 the powers of a matrix may lie that is inverted.
pub const INVERTED_POWERS: u32 = 100_000;

/// The inverse of the square part of a matrix: of the lines that are columns. The matrix has at most 5,604 columns, and
/// in each of them 1 at its own line and 0 at the lines of greater columns.
///
/// `TooLarge` with the greatest column, in any line, that has a power further from 0 than `INVERTED_POWERS`; where
/// there is none, with the greatest one at which, in some line, the sum of the products of the sizes passes the limit.
/// (Mathas, Iwahori-Hecke Algebras and Schur Algebras of the Symmetric Group, ch. 6)
pub fn inverse_matrix(alloc: Global, g: &Grid, limit: u128) -> Result<Grid, GridFault>
    requires triangular { IsSquareUnitriangular g.now.columns (cell_at g.now) }
    requires few { length g.now.columns ≤ 5604 }
    requires least { 1 ≤ limit }
    requires most { limit < 2 ^ 127 }
    ensures inverse { IfOk result (λ h. h ≡ inverse_of (square_of g.now)) }
    // the products of the square part and its inverse, in both orders, are the identity
    ensures is { OnOk result (IsInverse (square_of g.now) (inverse_of (square_of g.now))) }
    // no other grid is an inverse of the square part
    ensures only { (h : GridValue) → IsInverse (square_of g.now) h → OnOk result (h ≡ inverse_of (square_of g.now)) }
    ensures fits { OnOk result (inverse_past limit g.now ≡ Nothing) }
    ensures too_large { (at : List ℕ) → IsErrOf result (GridFault.TooLarge at) →
        inverse_past limit g.now ≡ Just at }
{
    let _degree = g.degree();
    if let Some(at) = column_past(alloc, g, INVERTED_POWERS)? {
        return Err(GridFault::TooLarge { at });
    }
    let square = square(alloc, g)?;
    invert(alloc, &square, limit)
}
