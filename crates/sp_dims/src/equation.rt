// The equation of one column, solved for its own dimension.
ghost use Rattle.std.specs.Prelude.{◌≡◌, ◌^◌, ◌+◌, ◌-◌, ◌*◌, ◌<◌, ◌≤◌, ◌↔◌, pos, ◌-ℤ◌, ◌*ℤ◌, unsigned_abs, length};
ghost use Rattle.std.specs.Prelude.{IfSome, IsNone, SomeIff};
ghost use Rattle.sp_defs.specs.Laurent.{slope_at_one};
ghost use Rattle.sp_fock_law.specs.Grid.{IsGrid, row_of};
ghost use Rattle.sp_dims.specs.Equation.{products_of, products_weight};

use sp_fock::Grid;
use sp_laurent::without_product;

// The number, less the values at v = 1 of the cells of a line, each times the dimension that is known for its column.
//
// None where the number and the absolute values of the products sum up to more than the limit.
pub(crate) fn solve(
    grid: &Grid,
    line: usize,
    known: &[i128],
    number: u128,
    limit: u128,
) -> Option<i128>
    requires most { limit < 2 ^ 127 }
    requires grid { IsGrid grid.now }
    requires line { line < length grid.now.lines }
    requires few { length known.now ≤ length grid.now.columns }
    ensures some { IfSome result (λ dim.
        dim ≡ pos number -ℤ slope_at_one (products_of (row_of grid.now line) known.now)) }
    ensures none { IsNone result ↔ (limit < number + products_weight (row_of grid.now line) known.now) }
{
    if number > limit {
        return None;
    }
    let mut room = limit - number;
    let mut dim = number as i128;
    for (column, simple) in known.iter().enumerate() {
        match less_product(dim, room, grid.cell(line, column).at_one(), *simple) {
            Some((less, rest)) => {
                dim = less;
                room = rest;
            }
            None => return None,
        }
    }
    Some(dim)
}

// The number less a product, and the room that the product leaves. None where it doesn't fit in the room.
fn less_product(number: i128, room: u128, a: i128, b: i128) -> Option<(i128, u128)>
    requires { unsigned_abs number + room < 2 ^ 127 }
    ensures { SomeIff result (unsigned_abs a * unsigned_abs b ≤ room)
        (number -ℤ a *ℤ b, room - unsigned_abs a * unsigned_abs b) }
{
    match without_product(room, a.unsigned_abs(), b.unsigned_abs()) {
        Some(rest) => Some((number - a * b, rest)),
        None => None,
    }
}
