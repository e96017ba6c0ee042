// Cartan matrices.
ghost use Rattle.std.specs.Prelude.{◌≡◌, ◌≤◌, ◌<◌, ◌/◌, ◌^◌, ℕ, List, IfOk, OnOk, IsErrOf};
ghost use Rattle.std.specs.Prelude.{None as Nothing, Some as Just};
ghost use Rattle.sp_laurent.specs.Held.{power_limit};
ghost use Rattle.sp_grid_law.specs.Tables.{HasPowersWithin};
ghost use Rattle.sp_cartan.specs.Cartan.{cartan_of};
ghost use Rattle.sp_cartan.specs.Refusals.{cartan_past};

use sp_fock::Grid;
use sp_inverse::{GridFault, multiply, transpose};
use std::alloc::Global;

/// The Cartan matrix: the transpose of a decomposition matrix times that matrix.
///
/// `TooLarge` where, at some line of a column, the sum of the products of the sizes passes the limit, with the greatest
/// such column. (Curtis and Reiner, Methods of Representation Theory, vol. I, section 18)
pub fn cartan_matrix(alloc: Global, g: &Grid, limit: u128) -> Result<Grid, GridFault>
    requires powers { HasPowersWithin (power_limit / 2) g.now }
    requires least { 1 ≤ limit }
    requires most { limit < 2 ^ 127 }
    ensures product { IfOk result (λ h. h ≡ cartan_of g.now) }
    ensures fits { OnOk result (cartan_past limit g.now ≡ Nothing) }
    ensures too_large { (at : List ℕ) → IsErrOf result (GridFault.TooLarge at) →
        cartan_past limit g.now ≡ Just at }
{
    let turned = transpose(alloc, g)?;
    multiply(alloc, &turned, g, limit)
}
