// Sums of products over the cells of a line.
ghost use Rattle.std.specs.Prelude.{◌≡◌, ◌^◌, ◌<◌, ◌≤◌, ◌↔◌, IfOk, IsErrOf, IsTrue};
ghost use Rattle.sp_defs.specs.Laurent.{size};
ghost use Rattle.sp_grid_law.specs.Lines.{cells_size, cells_sum, factor_at};
ghost use Rattle.sp_inverse.specs.Within.{AreCellsWithin};

use sp_fock::FockFault;
use sp_laurent::{Laurent, without_product};
use std::alloc::{AllocError, Global};

// The sum of the products of the cells with the factors at their places. Where there is no factor it is 0.
pub(crate) fn sum_of_products(
    alloc: Global,
    cells: &[(usize, Laurent)],
    factors: &[Laurent],
    limit: u128,
) -> Result<Laurent, FockFault>
    requires least { 1 ≤ limit }
    requires most { limit < 2 ^ 127 }
    requires within { AreCellsWithin cells.now factors.now }
    ensures sum { IfOk result (λ sum. sum ≡ cells_sum cells.now factors.now) }
    ensures fits { IfOk result (λ _. cells_size cells.now factors.now ≤ limit) }
    ensures too_large { IsErrOf result FockFault.TooLarge → limit < cells_size cells.now factors.now }
{
    if !products_fit(cells, factors, limit) {
        return Err(FockFault::TooLarge);
    }
    Ok(sum_within(alloc, cells, factors)?)
}

// Whether the sum of the products of the sizes is within the limit.
fn products_fit(cells: &[(usize, Laurent)], factors: &[Laurent], limit: u128) -> bool
    ensures { IsTrue result ↔ (cells_size cells.now factors.now ≤ limit) }
{
    let mut room = limit;
    for cell in cells {
        let Some(left) = without_product(room, cell.1.size(), size_at(factors, cell.0)) else {
            return false;
        };
        room = left;
    }
    true
}

// The size of the factor at a place.
fn size_at(factors: &[Laurent], place: usize) -> u128
    ensures { result ≡ size (factor_at factors.now place) }
{
    match factors.get(place) {
        Some(factor) => factor.size(),
        None => 0,
    }
}

// The sum, where the sizes fit.
fn sum_within(
    alloc: Global,
    cells: &[(usize, Laurent)],
    factors: &[Laurent],
) -> Result<Laurent, AllocError>
    requires within { AreCellsWithin cells.now factors.now }
    requires fits { cells_size cells.now factors.now < 2 ^ 127 }
    ensures { IfOk result (λ sum. sum ≡ cells_sum cells.now factors.now) }
{
    let mut sum = Laurent::zero(alloc);
    for cell in cells {
        if cell.0 < factors.len() {
            sum = sum.plus_product_within(&cell.1, factors[cell.0].terms())?;
        }
    }
    Ok(sum)
}
