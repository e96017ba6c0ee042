//! Worked grids.
ghost use Rattle.std.specs.Prelude.{◌≡◌, ◌/◌, IfOk, map};
ghost use Rattle.sp_defs.specs.Laurent.{monomial};
ghost use Rattle.sp_laurent.specs.Held.{power_limit};
ghost use Rattle.sp_grid_law.specs.Tables.{HasPowersWithin};
ghost use Rattle.sp_inverse.specs.Turned.{CanInvert};

use sp_fock::Grid;
use sp_inverse::{GridFault, column_past, invert, multiply, transpose};
use sp_laurent::Laurent;
use sp_partition::Partition;
use std::alloc::Global;
use std::test::Fail;

// A coefficient and a power of v.
type Cell = (i8, i8);

const ZERO: Cell = (0, 0);

const ONE: Cell = (1, 0);

// v to the power -5.
const FAR: Cell = (1, -5);

// The polynomials of one term each.
fn row(alloc: Global, terms: &[Cell]) -> Result<Vec<Laurent>, Fail>
    ensures { IfOk result (λ cells. cells.items ≡ map (λ t. monomial t.1 t.0) terms.now) }
{
    let mut cells = Vec::new(alloc);
    for term in terms {
        cells.push(Laurent::monomial(alloc, i128::from(term.0), i32::from(term.1))?)?;
    }
    Ok(cells)
}

// The grid of degree 2 with a power below the diagonal.
fn degree_two(alloc: Global) -> Result<Grid, Fail>
    ensures { IfOk result CanInvert }
{
    let columns = vec![in alloc;
        Partition::from_parts(&[2])?,
        Partition::from_parts(&[1, 1])?,
    ]?;
    let lines = vec![in alloc;
        Partition::from_parts(&[2])?,
        Partition::from_parts(&[1, 1])?,
    ]?;
    let cells = vec![in alloc; row(alloc, &[ONE, ZERO])?, row(alloc, &[FAR, ONE])?]?;
    Ok(Grid::build(alloc, 2, columns, lines, cells)?)
}

// The grid of degree 3 with 1 on the diagonal and below.
fn degree_three(alloc: Global) -> Result<Grid, Fail>
    ensures can { IfOk result CanInvert }
    ensures near { IfOk result (HasPowersWithin (power_limit / 2)) }
{
    let columns = vec![in alloc;
        Partition::from_parts(&[3])?,
        Partition::from_parts(&[2, 1])?,
        Partition::from_parts(&[1, 1, 1])?,
    ]?;
    let lines = vec![in alloc;
        Partition::from_parts(&[3])?,
        Partition::from_parts(&[2, 1])?,
        Partition::from_parts(&[1, 1, 1])?,
    ]?;
    let cells = vec![in alloc;
        row(alloc, &[ONE, ZERO, ZERO])?,
        row(alloc, &[ONE, ONE, ZERO])?,
        row(alloc, &[ONE, ONE, ONE])?,
    ]?;
    Ok(Grid::build(alloc, 3, columns, lines, cells)?)
}

fn put_grid(alloc: Global, grid: &Grid, out: &mut Vec<u8>) -> Result<(), Fail> {
    for column in grid.columns() {
        out.extend_from_slice(b" ")?;
        column.print(alloc, out)?;
    }
    let lines = grid.lines();
    for line in 0..lines.len() {
        out.extend_from_slice(b"; ")?;
        lines[line].print(alloc, out)?;
        for cell in grid.row(line) {
            out.extend_from_slice(b" ")?;
            cell.print(alloc, out)?;
        }
    }
    Ok(())
}

// What is printed of a grid, line by line, or why there is none.
fn told(alloc: Global, answer: &Result<Grid, GridFault>) -> Result<Vec<u8>, Fail> {
    let mut out = Vec::new(alloc);
    match answer {
        Ok(grid) => put_grid(alloc, grid, &mut out)?,
        Err(GridFault::TooLarge { at }) => {
            out.extend_from_slice(b"too large at ")?;
            at.print(alloc, &mut out)?;
        }
        Err(GridFault::Memory) => out.extend_from_slice(b"memory")?,
    }
    Ok(out)
}

#[test]
fn the_inverse_of_a_grid_of_two_lines(rt: HostRuntime) -> Result<(), Fail> {
    let alloc = rt.alloc();
    let grid = degree_two(alloc)?;
    let inverse = b" 2 1^2; 2 1 0; 1^2 -v^-5 1".as_slice();
    assert_eq!(rt; told(alloc, &invert(alloc, &grid, 1))?.as_slice(), inverse);
    Ok(())
}

#[test]
fn an_inverse_has_more_than_negated_cells(rt: HostRuntime) -> Result<(), Fail> {
    let alloc = rt.alloc();
    let grid = degree_three(alloc)?;
    let inverse = b" 3 2,1 1^3; 3 1 0 0; 2,1 -1 1 0; 1^3 0 -1 1".as_slice();
    assert_eq!(rt; told(alloc, &invert(alloc, &grid, 2))?.as_slice(), inverse);
    let refused = b"too large at 3".as_slice();
    assert_eq!(rt; told(alloc, &invert(alloc, &grid, 1))?.as_slice(), refused);
    Ok(())
}

#[test]
fn the_square_of_a_grid(rt: HostRuntime) -> Result<(), Fail> {
    let alloc = rt.alloc();
    let grid = degree_three(alloc)?;
    let square = b" 3 2,1 1^3; 3 1 0 0; 2,1 2 1 0; 1^3 3 2 1".as_slice();
    assert_eq!(rt;
        told(alloc, &multiply(alloc, &grid, &grid, 3))?.as_slice(),
        square
    );
    let refused = b"too large at 3".as_slice();
    assert_eq!(rt;
        told(alloc, &multiply(alloc, &grid, &grid, 2))?.as_slice(),
        refused
    );
    Ok(())
}

#[test]
fn lines_and_columns_are_exchanged(rt: HostRuntime) -> Result<(), Fail> {
    let alloc = rt.alloc();
    let grid = degree_two(alloc)?;
    let mut out = Vec::new(alloc);
    put_grid(alloc, &transpose(alloc, &grid)?, &mut out)?;
    assert_eq!(rt; out.as_slice(), b" 2 1^2; 2 1 v^-5; 1^2 0 1".as_slice());
    Ok(())
}

#[test]
fn the_greatest_column_with_a_power_that_is_too_far(rt: HostRuntime) -> Result<(), Fail> {
    let alloc = rt.alloc();
    let grid = degree_two(alloc)?;
    assert!(rt; column_past(alloc, &grid, 5)?.is_none());
    assert!(rt; column_past(alloc, &grid, 4)? == Some(Partition::from_parts(&[2])?));
    Ok(())
}
