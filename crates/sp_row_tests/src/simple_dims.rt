//! Dimensions of simple modules, from matrices that are built by hand.
ghost use Rattle.std.specs.Prelude.{◌≡◌, IfOk, map};
ghost use Rattle.sp_defs.specs.Laurent.{monomial};
ghost use Rattle.sp_module_defs.specs.Cells.{IsSquareUnitriangular, cell_at};

use sp_dims::{DimsFault, simple_dims};
use sp_fock::Grid;
use sp_laurent::Laurent;
use sp_partition::Partition;
use std::alloc::Global;
use std::test::Fail;

// A coefficient and a power of v.
type Cell = (i8, i8);

const ZERO: Cell = (0, 0);

const ONE: Cell = (1, 0);

// v and its square.
const V: Cell = (1, 1);

const SQUARE: Cell = (1, 2);

// The polynomials of one term each.
fn row(alloc: Global, terms: &[Cell]) -> Result<Vec<Laurent>, Fail>
    ensures { IfOk result (λ cells. cells.items ≡ map (λ t. monomial t.1 t.0) terms.now) }
{
    let mut cells = Vec::new(alloc);
    for term in terms {
        cells.push(Laurent::monomial(alloc, i128::from(term.0), i32::from(term.1))?)?;
    }
    Ok(cells)
}

// The matrix of degree 4 for e = 2.
fn degree_four(alloc: Global) -> Result<Grid, Fail>
    ensures { IfOk result (λ grid. IsSquareUnitriangular grid.columns (cell_at grid)) }
{
    let columns = vec![in alloc;
        Partition::from_parts(&[4])?,
        Partition::from_parts(&[3, 1])?,
    ]?;
    let lines = vec![in alloc;
        Partition::from_parts(&[4])?,
        Partition::from_parts(&[3, 1])?,
        Partition::from_parts(&[2, 2])?,
        Partition::from_parts(&[2, 1, 1])?,
        Partition::from_parts(&[1, 1, 1, 1])?,
    ]?;
    let cells = vec![in alloc;
        row(alloc, &[ONE, ZERO])?,
        row(alloc, &[V, ONE])?,
        row(alloc, &[ZERO, V])?,
        row(alloc, &[V, SQUARE])?,
        row(alloc, &[SQUARE, ZERO])?,
    ]?;
    Ok(Grid::build(alloc, 4, columns, lines, cells)?)
}

// The matrix of degree 5 for e = 2.
fn degree_five(alloc: Global) -> Result<Grid, Fail>
    ensures { IfOk result (λ grid. IsSquareUnitriangular grid.columns (cell_at grid)) }
{
    let columns = vec![in alloc;
        Partition::from_parts(&[5])?,
        Partition::from_parts(&[4, 1])?,
        Partition::from_parts(&[3, 2])?,
    ]?;
    let lines = vec![in alloc;
        Partition::from_parts(&[5])?,
        Partition::from_parts(&[4, 1])?,
        Partition::from_parts(&[3, 2])?,
        Partition::from_parts(&[3, 1, 1])?,
        Partition::from_parts(&[2, 2, 1])?,
        Partition::from_parts(&[2, 1, 1, 1])?,
        Partition::from_parts(&[1, 1, 1, 1, 1])?,
    ]?;
    let cells = vec![in alloc;
        row(alloc, &[ONE, ZERO, ZERO])?,
        row(alloc, &[ZERO, ONE, ZERO])?,
        row(alloc, &[ZERO, ZERO, ONE])?,
        row(alloc, &[V, ZERO, V])?,
        row(alloc, &[ZERO, ZERO, SQUARE])?,
        row(alloc, &[ZERO, V, ZERO])?,
        row(alloc, &[SQUARE, ZERO, ZERO])?,
    ]?;
    Ok(Grid::build(alloc, 5, columns, lines, cells)?)
}

// The dimensions, or why there are none.
fn told(alloc: Global, answer: &Result<Vec<i128>, DimsFault>) -> Result<Vec<u8>, Fail> {
    let mut out = Vec::new(alloc);
    match answer {
        Ok(dims) => {
            for dim in dims.as_slice() {
                out.extend_from_slice(format!(in alloc; " {dim}")?.as_bytes())?;
            }
        }
        Err(DimsFault::TooLarge { at }) => {
            out.extend_from_slice(b"too large at ")?;
            at.print(alloc, &mut out)?;
        }
        Err(DimsFault::Memory) => out.extend_from_slice(b"memory")?,
    }
    Ok(out)
}

#[test]
fn dims_of_degree_four(rt: HostRuntime) -> Result<(), Fail> {
    let alloc = rt.alloc();
    let grid = degree_four(alloc)?;
    // the weight at 3,1 is 3, which its line makes up of 1 and 2
    for (limit, want) in [
        (u64::MAX, b" 1 2".as_slice()),
        (4, b" 1 2"),
        (3, b"too large at 3,1"),
    ] {
        let answer = simple_dims(alloc, &grid, u128::from(limit));
        assert_eq!(rt; told(alloc, &answer)?.as_slice(), want, "within {limit}");
    }
    Ok(())
}

#[test]
fn dims_of_degree_five(rt: HostRuntime) -> Result<(), Fail> {
    let alloc = rt.alloc();
    let grid = degree_five(alloc)?;
    let greatest = simple_dims(alloc, &grid, (1 << 127) - 1);
    assert_eq!(rt; told(alloc, &greatest)?.as_slice(), b" 1 4 5".as_slice());
    let least = simple_dims(alloc, &grid, 4);
    assert_eq!(rt;
        told(alloc, &least)?.as_slice(),
        b"too large at 3,2".as_slice()
    );
    Ok(())
}
