//! Worked matrices.
ghost use Rattle.std.specs.Prelude.{◌≡◌, ◌/◌, ◌≤◌, IfOk, length, map, unsigned_abs};
ghost use Rattle.sp_defs.specs.Laurent.{monomial};
ghost use Rattle.sp_laurent.specs.Held.{power_limit};
ghost use Rattle.sp_grid_law.specs.Tables.{HasPowersWithin};
ghost use Rattle.sp_module_defs.specs.Cells.{IsSquareUnitriangular, cell_at};
ghost use Rattle.sp_cartan.specs.Square.{HasSquare};

use sp_cartan::{cartan_matrix, inverse_matrix, simple_character, square};
use sp_fock::Grid;
use sp_inverse::GridFault;
use sp_laurent::Laurent;
use sp_partition::Partition;
use std::alloc::Global;
use std::test::Fail;

// A coefficient and a power of v.
type Cell = (i8, i8);

const ZERO: Cell = (0, 0);

const ONE: Cell = (1, 0);

// v and its square.
const V: Cell = (1, 1);

const SQUARE: Cell = (1, 2);

// The polynomials of one term each.
fn row(alloc: Global, terms: &[Cell]) -> Result<Vec<Laurent>, Fail>
    ensures { IfOk result (λ cells. cells.items ≡ map (λ t. monomial t.1 t.0) terms.now) }
{
    let mut cells = Vec::new(alloc);
    for term in terms {
        cells.push(Laurent::monomial(alloc, i128::from(term.0), i32::from(term.1))?)?;
    }
    Ok(cells)
}

// The matrix of degree 4 for e = 2.
fn degree_four(alloc: Global) -> Result<Grid, Fail>
    ensures triangular { IfOk result (λ grid. IsSquareUnitriangular grid.columns (cell_at grid)) }
    ensures few { IfOk result (λ grid. length grid.columns ≤ 5604) }
    ensures square { IfOk result HasSquare }
{
    let columns = vec![in alloc;
        Partition::from_parts(&[4])?,
        Partition::from_parts(&[3, 1])?,
    ]?;
    let lines = vec![in alloc;
        Partition::from_parts(&[4])?,
        Partition::from_parts(&[3, 1])?,
        Partition::from_parts(&[2, 2])?,
        Partition::from_parts(&[2, 1, 1])?,
        Partition::from_parts(&[1, 1, 1, 1])?,
    ]?;
    let cells = vec![in alloc;
        row(alloc, &[ONE, ZERO])?,
        row(alloc, &[V, ONE])?,
        row(alloc, &[ZERO, V])?,
        row(alloc, &[V, SQUARE])?,
        row(alloc, &[SQUARE, ZERO])?,
    ]?;
    Ok(Grid::build(alloc, 4, columns, lines, cells)?)
}

// The same at v = 1.
fn degree_four_at_one(alloc: Global) -> Result<Grid, Fail>
    ensures { IfOk result (HasPowersWithin (power_limit / 2)) }
{
    let columns = vec![in alloc;
        Partition::from_parts(&[4])?,
        Partition::from_parts(&[3, 1])?,
    ]?;
    let lines = vec![in alloc;
        Partition::from_parts(&[4])?,
        Partition::from_parts(&[3, 1])?,
        Partition::from_parts(&[2, 2])?,
        Partition::from_parts(&[2, 1, 1])?,
        Partition::from_parts(&[1, 1, 1, 1])?,
    ]?;
    let cells = vec![in alloc;
        row(alloc, &[ONE, ZERO])?,
        row(alloc, &[ONE, ONE])?,
        row(alloc, &[ZERO, ONE])?,
        row(alloc, &[ONE, ONE])?,
        row(alloc, &[ONE, ZERO])?,
    ]?;
    Ok(Grid::build(alloc, 4, columns, lines, cells)?)
}

// A matrix of one column, with this power of v in the line that is no column.
fn degree_two(alloc: Global, power: i32) -> Result<Grid, Fail>
    requires { unsigned_abs power ≤ power_limit }
    ensures triangular { IfOk result (λ grid. IsSquareUnitriangular grid.columns (cell_at grid)) }
    ensures few { IfOk result (λ grid. length grid.columns ≤ 5604) }
{
    let columns = vec![in alloc; Partition::from_parts(&[2])?]?;
    let lines = vec![in alloc;
        Partition::from_parts(&[2])?,
        Partition::from_parts(&[1, 1])?,
    ]?;
    let behind = vec![in alloc; Laurent::monomial(alloc, 1, power)?]?;
    let cells = vec![in alloc; row(alloc, &[ONE])?, behind]?;
    Ok(Grid::build(alloc, 2, columns, lines, cells)?)
}

fn put_grid(alloc: Global, grid: &Grid, out: &mut Vec<u8>) -> Result<(), Fail> {
    for column in grid.columns() {
        out.extend_from_slice(b" ")?;
        column.print(alloc, out)?;
    }
    let lines = grid.lines();
    for line in 0..lines.len() {
        out.extend_from_slice(b"; ")?;
        lines[line].print(alloc, out)?;
        for cell in grid.row(line) {
            out.extend_from_slice(b" ")?;
            cell.print(alloc, out)?;
        }
    }
    Ok(())
}

// What is printed of a grid, line by line, or why there is none.
fn told(alloc: Global, answer: &Result<Grid, GridFault>) -> Result<Vec<u8>, Fail> {
    let mut out = Vec::new(alloc);
    match answer {
        Ok(grid) => put_grid(alloc, grid, &mut out)?,
        Err(GridFault::TooLarge { at }) => {
            out.extend_from_slice(b"too large at ")?;
            at.print(alloc, &mut out)?;
        }
        Err(GridFault::Memory) => out.extend_from_slice(b"memory")?,
    }
    Ok(out)
}

#[test]
fn the_square_part_of_degree_four(rt: HostRuntime) -> Result<(), Fail> {
    let alloc = rt.alloc();
    let grid = degree_four(alloc)?;
    let mut out = Vec::new(alloc);
    put_grid(alloc, &square(alloc, &grid)?, &mut out)?;
    assert_eq!(rt; out.as_slice(), b" 4 3,1; 4 1 0; 3,1 v 1".as_slice());
    Ok(())
}

#[test]
fn the_inverse_of_degree_four(rt: HostRuntime) -> Result<(), Fail> {
    let alloc = rt.alloc();
    let grid = degree_four(alloc)?;
    let inverse = b" 4 3,1; 4 1 0; 3,1 -v 1".as_slice();
    assert_eq!(rt;
        told(alloc, &inverse_matrix(alloc, &grid, 1))?.as_slice(),
        inverse
    );
    Ok(())
}

#[test]
fn powers_in_every_line_are_looked_at(rt: HostRuntime) -> Result<(), Fail> {
    let alloc = rt.alloc();
    let near = degree_two(alloc, -100_000)?;
    assert_eq!(rt;
        told(alloc, &inverse_matrix(alloc, &near, 1))?.as_slice(),
        b" 2; 2 1".as_slice()
    );
    let far = degree_two(alloc, -100_001)?;
    assert_eq!(rt;
        told(alloc, &inverse_matrix(alloc, &far, 1))?.as_slice(),
        b"too large at 2".as_slice()
    );
    Ok(())
}

#[test]
fn the_cartan_matrix_of_degree_four(rt: HostRuntime) -> Result<(), Fail> {
    let alloc = rt.alloc();
    let grid = degree_four_at_one(alloc)?;
    let cartan = b" 4 3,1; 4 4 2; 3,1 2 3".as_slice();
    assert_eq!(rt;
        told(alloc, &cartan_matrix(alloc, &grid, 4))?.as_slice(),
        cartan
    );
    let refused = b"too large at 4".as_slice();
    assert_eq!(rt;
        told(alloc, &cartan_matrix(alloc, &grid, 3))?.as_slice(),
        refused
    );
    Ok(())
}

#[test]
fn simple_modules_of_degree_four(rt: HostRuntime) -> Result<(), Fail> {
    let alloc = rt.alloc();
    let grid = degree_four(alloc)?;
    let inverse = inverse_matrix(alloc, &grid, 1)?;
    for (parts, want) in [
        ([3, 1].as_slice(), b"-[4] + [3,1]".as_slice()),
        (&[4], b"[4]"),
        (&[2, 2], b"0"),
    ] {
        let mu = Partition::from_parts(parts)?;
        let mut out = Vec::new(alloc);
        simple_character(alloc, &inverse, &mu)?.print(alloc, &mut out)?;
        assert_eq!(rt; out.as_slice(), want);
    }
    Ok(())
}
