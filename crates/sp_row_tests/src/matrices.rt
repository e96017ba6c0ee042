//! Worked matrices.
ghost use Rattle.std.specs.Prelude.{◌≡◌, ◌≤◌, ◌<◌, ◌^◌, IfOk, length, vec_len};
ghost use Rattle.sp_llt.specs.Filled.{IsFilled};
ghost use Rattle.sp_matrix.specs.Agreements.{HasAll};

use sp_fock::Grid;
use sp_laurent::Laurent;
use sp_llt::{Ctx, Entry, Refused, RowsFault, entry_alone};
use sp_matrix::{
    Agreement, CompareFault, block, compare, compare_alone, conjugate_grid, conjugate_vector,
    conjugates_law, crystal, decomposition,
};
use sp_partition::Partition;
use std::alloc::{AllocError, Global};
use std::sync::Arc;
use std::test::Fail;
use std::thread::Threads;

/// Which matrix is made.
#[derive(Drop)]
enum Kind {
    Crystal,
    Decomposition,
    Block(Partition),
}

/// The entries of all ranks, ascending, each made by itself.
fn entries(alloc: Global, ctx: &Ctx) -> Result<Vec<Arc<Entry>>, AllocError>
    ensures { IfOk result (λ rows. IsFilled ctx.now rows.items) }
{
    let mut rows = Vec::new(alloc);
    for k in 0..ctx.regulars().len() {
        let entry = entry_alone(alloc, ctx, k)?;
        rows.push(Arc::new(alloc, entry)?)?;
    }
    Ok(rows)
}

/// The matrix as text, line by line, or the column that refused it.
fn text(alloc: Global, kind: Kind, e: u8, degree: u8, limit: u128) -> Result<Vec<u8>, Fail>
    requires e_least { 2 ≤ e }
    requires e_most { e ≤ 64 }
    requires small { degree ≤ 20 }
    requires least { 1 ≤ limit }
    requires most { limit < 2 ^ 127 }
{
    let ctx = Ctx::open(alloc, e, degree, limit)?;
    let rows = entries(alloc, &ctx)?;
    let made = match kind {
        Kind::Crystal => crystal(alloc, &ctx, &rows),
        Kind::Decomposition => decomposition(alloc, &ctx, &rows),
        Kind::Block(core) => block(alloc, &ctx, &rows, &core),
    };
    let mut out = Vec::new(alloc);
    match made {
        Ok(grid) => put_grid(alloc, &grid, &mut out)?,
        Err(RowsFault::Refused(refused)) => {
            match refused.why {
                Refused::TooLarge => out.extend_from_slice(b"too large at ")?,
                Refused::Stray { .. } => out.extend_from_slice(b"stray at ")?,
            }
            refused.mu.print(alloc, &mut out)?;
        }
        Err(RowsFault::Memory) => out.extend_from_slice(b"memory")?,
    }
    Ok(out)
}

fn put_grid(alloc: Global, grid: &Grid, out: &mut Vec<u8>) -> Result<(), Fail> {
    for column in grid.columns() {
        out.extend_from_slice(b" ")?;
        column.print(alloc, out)?;
    }
    let lines = grid.lines();
    for line in 0..lines.len() {
        out.extend_from_slice(b"; ")?;
        lines[line].print(alloc, out)?;
        for cell in grid.row(line) {
            out.extend_from_slice(b" ")?;
            cell.print(alloc, out)?;
        }
    }
    Ok(())
}

#[test]
fn the_matrix_of_degree_five(rt: HostRuntime) -> Result<(), Fail> {
    let alloc = rt.alloc();
    let whole =
        b" 5 4,1 3,2; 5 1 0 0; 4,1 0 1 0; 3,2 0 0 1; 3,1^2 v 0 v; 2^2,1 0 0 v^2; 2,1^3 0 v 0; 1^5 v^2 0 0".as_slice();
    assert_eq!(rt; text(alloc, Kind::Crystal, 2, 5, 3)?.as_slice(), whole);
    let refused = b"too large at 5".as_slice();
    assert_eq!(rt; text(alloc, Kind::Crystal, 2, 5, 2)?.as_slice(), refused);
    assert_eq!(rt;
        text(alloc, Kind::Crystal, 2, 0, 1)?.as_slice(),
        b" -; - 1".as_slice()
    );
    Ok(())
}

#[test]
fn the_greatest_column_that_is_refused(rt: HostRuntime) -> Result<(), Fail> {
    let refused = b"too large at 9,1".as_slice();
    assert_eq!(rt;
        text(rt.alloc(), Kind::Crystal, 3, 10, 5)?.as_slice(),
        refused
    );
    Ok(())
}

#[test]
fn values_at_one(rt: HostRuntime) -> Result<(), Fail> {
    let alloc = rt.alloc();
    let at_two = b" 4 3,1; 4 1 0; 3,1 1 1; 2^2 0 1; 2,1^2 1 1; 1^4 1 0".as_slice();
    assert_eq!(rt;
        text(alloc, Kind::Decomposition, 2, 4, 1_000)?.as_slice(),
        at_two
    );
    let at_nine =
        b" 4 3,1 2^2 2,1^2 1^4; 4 1 0 0 0 0; 3,1 0 1 0 0 0; 2^2 0 0 1 0 0; 2,1^2 0 0 0 1 0; 1^4 0 0 0 0 1".as_slice();
    assert_eq!(rt;
        text(alloc, Kind::Decomposition, 9, 4, 1_000)?.as_slice(),
        at_nine
    );
    Ok(())
}

#[test]
fn blocks_have_their_own_columns(rt: HostRuntime) -> Result<(), Fail> {
    let alloc = rt.alloc();
    let of_one = b" 4 2^2; 4 1 0; 2^2 1 1; 1^4 0 1".as_slice();
    let core = Partition::from_parts(&[1])?;
    assert_eq!(rt;
        text(alloc, Kind::Block(core), 3, 4, 1_000)?.as_slice(),
        of_one
    );
    // at this limit the column 5, which is in the other block, is refused
    let four_one = b" 4,1; 4,1 1; 2,1^3 1".as_slice();
    let core = Partition::from_parts(&[2, 1])?;
    assert_eq!(rt;
        text(alloc, Kind::Block(core), 2, 5, 2)?.as_slice(),
        four_one
    );
    let core = Partition::from_parts(&[1])?;
    let refused = b"too large at 5".as_slice();
    assert_eq!(rt;
        text(alloc, Kind::Block(core), 2, 5, 2)?.as_slice(),
        refused
    );
    Ok(())
}

/// What an agreement tells, or why there is none.
fn told(alloc: Global, answer: Result<Agreement, CompareFault>) -> Result<Vec<u8>, Fail> {
    let mut out = Vec::new(alloc);
    match answer {
        Ok(agreement) => {
            out.extend_from_slice(format!(in alloc;
                "{} of {}",
                agreement.agreeing, agreement.total
            )?.as_bytes())?;
            if let Some(first) = agreement.first {
                out.extend_from_slice(b", not ")?;
                first.print(alloc, &mut out)?;
            }
        }
        Err(CompareFault::TooLarge) => out.extend_from_slice(b"too large")?,
        Err(CompareFault::Memory) => out.extend_from_slice(b"memory")?,
    }
    Ok(out)
}

/// The comparison of a matrix of coefficients, on one thread and on many, or of their values at v = 1.
fn compared(
    rt: &(impl Threads + Sync),
    alloc: Global,
    kind: Kind,
    e: u8,
    degree: u8,
    limit: u128,
) -> Result<Vec<u8>, Fail>
    requires e_least { 2 ≤ e }
    requires e_most { e ≤ 64 }
    requires small { degree ≤ 20 }
    requires least { 1 ≤ limit }
    requires most { limit < 2 ^ 127 }
{
    let ctx = Ctx::open(alloc, e, degree, 1_000_000)?;
    let rows = entries(alloc, &ctx)?;
    let mut out = Vec::new(alloc);
    match kind {
        Kind::Crystal => {
            if let Ok(grid) = crystal(alloc, &ctx, &rows) {
                let alone = told(alloc, compare_alone(alloc, e, &grid, limit))?;
                out.extend_from_slice(&alone)?;
                out.extend_from_slice(b"; ")?;
                let many = told(alloc, compare(rt, alloc, e, &grid, limit))?;
                out.extend_from_slice(&many)?;
            }
        }
        Kind::Decomposition => {
            if let Ok(grid) = decomposition(alloc, &ctx, &rows) {
                let alone = told(alloc, compare_alone(alloc, e, &grid, limit))?;
                out.extend_from_slice(&alone)?;
            }
        }
        Kind::Block(_) => {}
    }
    Ok(out)
}

#[test]
fn derivatives_at_one_are_jantzen_sums(rt: HostRuntime) -> Result<(), Fail> {
    let five = b"5 of 5; 5 of 5".as_slice();
    assert_eq!(rt;
        compared(&rt, rt.alloc(), Kind::Crystal, 2, 4, 1_000)?.as_slice(),
        five
    );
    let seven = b"7 of 7; 7 of 7".as_slice();
    assert_eq!(rt;
        compared(&rt, rt.alloc(), Kind::Crystal, 3, 5, 3)?.as_slice(),
        seven
    );
    let large = b"too large; too large".as_slice();
    assert_eq!(rt;
        compared(&rt, rt.alloc(), Kind::Crystal, 2, 6, 3)?.as_slice(),
        large
    );
    // the derivatives of constants are 0
    let one = b"1 of 5, not 3,1".as_slice();
    assert_eq!(rt;
        compared(&rt, rt.alloc(), Kind::Decomposition, 2, 4, 1_000)?.as_slice(),
        one
    );
    Ok(())
}

// A power of v, or 0.
fn row(alloc: Global, cells: &[Option<u8>]) -> Result<Vec<Laurent>, Fail>
    ensures { IfOk result (λ row. vec_len row ≡ length cells.now) }
{
    let mut row = Vec::new(alloc);
    for cell in cells {
        match cell {
            Some(power) => row.push(Laurent::monomial(alloc, 1, i32::from(*power))?)?,
            None => row.push(Laurent::zero(alloc))?,
        }
    }
    Ok(row)
}

/// A table of degree 3 that isn't the matrix for e = 2, which has 0 at 2,1 and v at 1^3.
fn no_matrix(alloc: Global) -> Result<Grid, Fail>
    ensures { IfOk result (HasAll 2) }
{
    let columns = vec![in alloc;
        Partition::from_parts(&[3])?,
        Partition::from_parts(&[2, 1])?,
    ]?;
    let lines = vec![in alloc;
        Partition::from_parts(&[3])?,
        Partition::from_parts(&[2, 1])?,
        Partition::from_parts(&[1, 1, 1])?,
    ]?;
    let cells = vec![in alloc;
        row(alloc, &[Some(0), None])?,
        row(alloc, &[Some(1), Some(0)])?,
        row(alloc, &[Some(2), None])?,
    ]?;
    Ok(Grid::build(alloc, 3, columns, lines, cells)?)
}

#[test]
fn the_greatest_line_that_differs(rt: HostRuntime) -> Result<(), Fail> {
    let alloc = rt.alloc();
    let grid = no_matrix(alloc)?;
    // the derivatives at 2,1 and at 1^3 are 1 and 2, the Jantzen sums there 0 and 1
    let differs = b"1 of 3, not 2,1".as_slice();
    assert_eq!(rt;
        told(alloc, compare_alone(alloc, 2, &grid, 2))?.as_slice(),
        differs
    );
    assert_eq!(rt;
        told(alloc, compare(&rt, alloc, 2, &grid, 2))?.as_slice(),
        differs
    );
    let large = b"too large".as_slice();
    assert_eq!(rt;
        told(alloc, compare_alone(alloc, 2, &grid, 1))?.as_slice(),
        large
    );
    Ok(())
}

/// The matrix of coefficients, its conjugate, and the conjugate of that, as text.
fn conjugated(alloc: Global, e: u8, degree: u8) -> Result<[Vec<u8>; 3], Fail>
    requires e_least { 2 ≤ e }
    requires e_most { e ≤ 64 }
    requires small { degree ≤ 20 }
{
    let ctx = Ctx::open(alloc, e, degree, 1_000_000)?;
    let rows = entries(alloc, &ctx)?;
    let mut texts = [Vec::new(alloc), Vec::new(alloc), Vec::new(alloc)];
    if let Ok(grid) = crystal(alloc, &ctx, &rows) {
        let conjugate = conjugate_grid(alloc, &grid)?;
        put_grid(alloc, &grid, &mut texts[0])?;
        put_grid(alloc, &conjugate, &mut texts[1])?;
        put_grid(alloc, &conjugate_grid(alloc, &conjugate)?, &mut texts[2])?;
    }
    Ok(texts)
}

#[test]
fn conjugate_matrices(rt: HostRuntime) -> Result<(), Fail> {
    let alloc = rt.alloc();
    let [three, turned, _] = conjugated(alloc, 2, 3)?;
    assert_eq!(rt;
        three.as_slice(),
        b" 3 2,1; 3 1 0; 2,1 0 1; 1^3 v 0".as_slice()
    );
    assert_eq!(rt;
        turned.as_slice(),
        b" 2,1 1^3; 3 0 v; 2,1 1 0; 1^3 0 1".as_slice()
    );
    let [_, turned, _] = conjugated(alloc, 2, 5)?;
    let five = b" 2^2,1 2,1^3 1^5; 5 0 0 v^2; 4,1 0 v 0; 3,2 v^2 0 0; 3,1^2 v 0 v; 2^2,1 1 0 0; \
        2,1^3 0 1 0; 1^5 0 0 1"
        .as_slice();
    assert_eq!(rt; turned.as_slice(), five);
    let [none, turned, _] = conjugated(alloc, 2, 0)?;
    assert_eq!(rt; turned.as_slice(), none.as_slice());
    Ok(())
}

#[test]
fn conjugates_of_conjugates(rt: HostRuntime) -> Result<(), Fail> {
    conjugates_law();
    for e in 2..5 {
        let [once, _, twice] = conjugated(rt.alloc(), e, 7)?;
        assert_eq!(rt; twice.as_slice(), once.as_slice());
    }
    Ok(())
}

#[test]
fn conjugate_vectors(rt: HostRuntime) -> Result<(), Fail> {
    let alloc = rt.alloc();
    let ctx = Ctx::open(alloc, 2, 5, 1_000)?;
    let rows = entries(alloc, &ctx)?;
    let mut out = Vec::new(alloc);
    for entry in &rows {
        if let Ok(row) = entry.row() {
            conjugate_vector(alloc, row)?.print(alloc, &mut out)?;
            out.extend_from_slice(b"\n")?;
        }
    }
    let turned =
        b"v^2[3,2] + v[3,1^2] + [2^2,1]\nv[4,1] + [2,1^3]\nv^2[5] + v[3,1^2] + [1^5]\n".as_slice();
    assert_eq!(rt; out.as_slice(), turned);
    Ok(())
}
