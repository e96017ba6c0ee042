//! Worked values.
use sp_fock::{FockFault, Grid, Tally, Vector};
use sp_laurent::Laurent;
use sp_partition::Partition;
use std::alloc::Global;
use std::process::Abort;
use std::test::Fail;

// Adds `coefficient * v^power` at a partition, and says what `add_scaled` answered.
fn add_term(
    rt: &impl Abort,
    alloc: Global,
    v: &mut Vector,
    parts: &[u8],
    coefficient: i8,
    power: i8,
    limit: u8,
) -> Result<Result<(), FockFault>, Fail> {
    let p = Partition::from_parts(parts)?;
    assert_eq!(rt; v.degree(), p.degree());
    assert!(rt; limit > 0);
    let a = Laurent::monomial(alloc, i128::from(coefficient), i32::from(power))?;
    let unit = Vector::one(alloc, &p)?;
    Ok(v.add_scaled(alloc, &a, &unit, u128::from(limit)))
}

fn text_of(alloc: Global, v: &Vector) -> Result<Vec<u8>, Fail> {
    let mut text = Vec::from_slice(alloc, b"= ")?;
    v.print(alloc, &mut text)?;
    Ok(text)
}

#[test]
fn prints_its_terms_descending(rt: HostRuntime) -> Result<(), Fail> {
    let alloc = rt.alloc();
    let mut v = Vector::zero(alloc, 3);
    assert_eq!(rt; text_of(alloc, &v)?.as_slice(), b"= 0".as_slice());
    let terms: [(&[u8], i8, i8); 4] = [
        (&[1, 1, 1], -2, 1),
        (&[3], -1, 0),
        (&[2, 1], 1, 0),
        (&[2, 1], 1, 2),
    ];
    for (parts, coefficient, power) in terms {
        assert_eq!(rt;
            add_term(&rt, alloc, &mut v, parts, coefficient, power, 9)?,
            Ok(())
        );
    }
    assert_eq!(rt;
        text_of(alloc, &v)?.as_slice(),
        b"= -[3] + (1+v^2)[2,1] - 2v[1^3]".as_slice()
    );

    let copy = v.copy(alloc)?;
    assert_eq!(rt;
        text_of(alloc, &copy)?.as_slice(),
        b"= -[3] + (1+v^2)[2,1] - 2v[1^3]".as_slice()
    );
    let mut sizes = Vec::new(alloc);
    for (at, coefficient) in v.terms() {
        sizes.push((at.parts().len(), coefficient.size()))?;
    }
    assert_eq!(rt; sizes.as_slice(), [(1, 1), (2, 2), (3, 2)].as_slice());
    assert_eq!(rt; v.pairs().len(), 3);
    Ok(())
}

#[test]
fn adds_up_to_a_limit(rt: HostRuntime) -> Result<(), Fail> {
    let alloc = rt.alloc();
    let at = Partition::from_parts(&[2])?;
    let other = Partition::from_parts(&[1, 1])?;
    let mut v = Vector::one(alloc, &at)?;
    assert_eq!(rt;
        add_term(&rt, alloc, &mut v, &[2], 1, 0, 1)?,
        Err(FockFault::TooLarge)
    );
    assert_eq!(rt; text_of(alloc, &v)?.as_slice(), b"= [2]".as_slice());
    assert_eq!(rt; add_term(&rt, alloc, &mut v, &[2], 1, 0, 2)?, Ok(()));
    assert_eq!(rt; v.coefficient(&at).map(Laurent::size), Some(2));
    assert_eq!(rt; v.coefficient(&other).map(Laurent::size), None);

    // A sum that is 0 isn't kept.
    assert_eq!(rt; add_term(&rt, alloc, &mut v, &[2], -2, 0, 4)?, Ok(()));
    assert_eq!(rt; v.pairs().len(), 0);
    Ok(())
}

// The sum of `coefficient * v^power` at partitions of a degree.
fn sum_of_terms(
    rt: &impl Abort,
    alloc: Global,
    degree: u8,
    terms: &[(&[u8], i8, i8)],
) -> Result<Vector, Fail> {
    let mut v = Vector::zero(alloc, degree);
    for (parts, coefficient, power) in terms {
        assert_eq!(rt;
            add_term(rt, alloc, &mut v, parts, *coefficient, *power, 9)?,
            Ok(())
        );
    }
    Ok(v)
}

// The ladder vector of the partition 5 for e = 2.
fn ladder_of_five(rt: &impl Abort, alloc: Global) -> Result<Vector, Fail> {
    let terms: [(&[u8], i8, i8); 5] = [
        (&[5], 1, 0),
        (&[3, 2], 1, 0),
        (&[3, 1, 1], 2, 1),
        (&[2, 2, 1], 1, 2),
        (&[1, 1, 1, 1, 1], 1, 2),
    ];
    sum_of_terms(rt, alloc, 5, &terms)
}

// The row of the partition 3,2 for e = 2.
fn row_of_three_two(rt: &impl Abort, alloc: Global) -> Result<Vector, Fail> {
    let terms: [(&[u8], i8, i8); 3] = [(&[3, 2], 1, 0), (&[3, 1, 1], 1, 1), (&[2, 2, 1], 1, 2)];
    sum_of_terms(rt, alloc, 5, &terms)
}

fn subtract_once(
    rt: &impl Abort,
    alloc: Global,
    t: Tally,
    w: &Vector,
    limit: u8,
) -> Result<Result<Tally, FockFault>, Fail> {
    assert_eq!(rt; t.vector().degree(), w.degree());
    assert!(rt; limit > 0);
    let one = Laurent::monomial(alloc, 1, 0)?;
    Ok(t.subtract(alloc, &one, w, u128::from(limit)))
}

#[test]
fn totals_pass_a_limit(rt: HostRuntime) -> Result<(), Fail> {
    let alloc = rt.alloc();
    let tally = Tally::from_vector(alloc, ladder_of_five(&rt, alloc)?)?;
    let row = row_of_three_two(&rt, alloc)?;
    let fault = subtract_once(&rt, alloc, tally, &row, 2)?.err();
    assert_eq!(rt; fault, Some(FockFault::TooLarge));
    Ok(())
}

#[test]
fn totals_grow_where_terms_cancel(rt: HostRuntime) -> Result<(), Fail> {
    let alloc = rt.alloc();
    let tally = Tally::from_vector(alloc, ladder_of_five(&rt, alloc)?)?;
    let row = row_of_three_two(&rt, alloc)?;
    let left = subtract_once(&rt, alloc, tally, &row, 3)??;
    let totals: [(&[u8], u128); 6] = [
        (&[5], 1),
        (&[4, 1], 0),
        (&[3, 2], 2),
        (&[3, 1, 1], 3),
        (&[2, 2, 1], 2),
        (&[1, 1, 1, 1, 1], 1),
    ];
    for (parts, total) in totals {
        assert_eq!(rt; left.total(&Partition::from_parts(parts)?), total);
    }
    assert_eq!(rt;
        text_of(alloc, &left.into_vector())?.as_slice(),
        b"= [5] + v[3,1^2] + v^2[1^5]".as_slice()
    );
    Ok(())
}

// A table of degree 2 in which one cell is 0.
#[test]
fn a_grid_has_the_cells_that_it_was_built_from(rt: HostRuntime) -> Result<(), Fail> {
    let alloc = rt.alloc();
    let upper = Partition::from_parts(&[2])?;
    let lower = Partition::from_parts(&[1, 1])?;
    let columns = vec![in alloc; upper, lower]?;
    let lines = vec![in alloc; upper, lower]?;
    let first = vec![in alloc; Laurent::monomial(alloc, 1, 0)?, Laurent::zero(alloc)]?;
    let second = vec![in alloc;
        Laurent::monomial(alloc, 3, 1)?,
        Laurent::monomial(alloc, 2, 0)?,
    ]?;
    let cells = vec![in alloc; first, second]?;
    let grid = Grid::build(alloc, 2, columns, lines, cells)?;
    assert_eq!(rt; grid.degree(), 2);
    assert_eq!(rt; grid.columns(), [upper, lower].as_slice());
    assert_eq!(rt; grid.lines(), [upper, lower].as_slice());
    assert_eq!(rt; grid.cell(0, 0).size(), 1);
    assert_eq!(rt; grid.cell(0, 1).size(), 0);
    assert_eq!(rt; grid.cell(1, 0).size(), 3);
    assert_eq!(rt; grid.cell(1, 1).size(), 2);
    assert_eq!(rt; grid.line_cells(0).len(), 1);
    assert_eq!(rt; grid.line_cells(1).len(), 2);
    let mut sizes = Vec::new(alloc);
    for cell in grid.row(0) {
        sizes.push(cell.size())?;
    }
    assert_eq!(rt; sizes.as_slice(), [1, 0].as_slice());
    Ok(())
}
