//! Worked pages.
ghost use Rattle.std.specs.Prelude.{◌≡◌, codes, length, vec_len, IfOk};
ghost use Rattle.sp_paint.specs.declared.form.Form.TheVariants.{Tex as tex_form};

use sp_fock::Grid;
use sp_laurent::Laurent;
use sp_paint::{Form, Gap, Painter, Plain, Tex, choose, put_page, put_trailer};
use sp_partition::Partition;
use std::alloc::{AllocError, Global};
use std::test::Fail;

// A coefficient and a power of v.
type Cell = (i8, i8);

const ZERO: Cell = (0, 0);

const ONE: Cell = (1, 0);

// The polynomials of one term each.
fn row(alloc: Global, terms: &[Cell]) -> Result<Vec<Laurent>, Fail>
    ensures { IfOk result (λ cells. vec_len cells ≡ length terms.now) }
{
    let mut cells = Vec::new(alloc);
    for (coefficient, power) in terms {
        cells.push(Laurent::monomial(alloc, i128::from(*coefficient), i32::from(*power))?)?;
    }
    Ok(cells)
}

// The page of a painter, behind a text that stands already.
fn page_by<P: Painter>(alloc: Global, painter: &mut P, grid: &Grid) -> Result<Vec<u8>, Fail> {
    let mut text = Vec::from_slice(alloc, b"= ")?;
    painter.page(alloc, grid, &mut text)?;
    Ok(text)
}

// The matrix of degree 5 for e = 2.
fn degree_five(alloc: Global) -> Result<Grid, Fail> {
    let columns = vec![in alloc;
        Partition::from_parts(&[5])?,
        Partition::from_parts(&[4, 1])?,
        Partition::from_parts(&[3, 2])?,
    ]?;
    let lines = vec![in alloc;
        Partition::from_parts(&[5])?,
        Partition::from_parts(&[4, 1])?,
        Partition::from_parts(&[3, 2])?,
        Partition::from_parts(&[3, 1, 1])?,
        Partition::from_parts(&[2, 2, 1])?,
        Partition::from_parts(&[2, 1, 1, 1])?,
        Partition::from_parts(&[1, 1, 1, 1, 1])?,
    ]?;
    let cells = vec![in alloc;
        row(alloc, &[ONE, ZERO, ZERO])?,
        row(alloc, &[ZERO, ONE, ZERO])?,
        row(alloc, &[ZERO, ZERO, ONE])?,
        row(alloc, &[(1, 1), ZERO, (1, 1)])?,
        row(alloc, &[ZERO, ZERO, (1, 2)])?,
        row(alloc, &[ZERO, (1, 1), ZERO])?,
        row(alloc, &[(1, 2), ZERO, ZERO])?,
    ]?;
    Ok(Grid::build(alloc, 5, columns, lines, cells)?)
}

// The matrix of degree 4 for e = 3.
fn degree_four(alloc: Global) -> Result<Grid, Fail> {
    let columns = vec![in alloc;
        Partition::from_parts(&[4])?,
        Partition::from_parts(&[3, 1])?,
        Partition::from_parts(&[2, 2])?,
        Partition::from_parts(&[2, 1, 1])?,
    ]?;
    let lines = vec![in alloc;
        Partition::from_parts(&[4])?,
        Partition::from_parts(&[3, 1])?,
        Partition::from_parts(&[2, 2])?,
        Partition::from_parts(&[2, 1, 1])?,
        Partition::from_parts(&[1, 1, 1, 1])?,
    ]?;
    let cells = vec![in alloc;
        row(alloc, &[ONE, ZERO, ZERO, ZERO])?,
        row(alloc, &[ZERO, ONE, ZERO, ZERO])?,
        row(alloc, &[(1, 1), ZERO, ONE, ZERO])?,
        row(alloc, &[ZERO, ZERO, ZERO, ONE])?,
        row(alloc, &[ZERO, ZERO, (1, 1), ZERO])?,
    ]?;
    Ok(Grid::build(alloc, 4, columns, lines, cells)?)
}

// A block of degree 4 for e = 3 at v = 1.
fn block(alloc: Global) -> Result<Grid, Fail> {
    let columns = vec![in alloc;
        Partition::from_parts(&[4])?,
        Partition::from_parts(&[2, 2])?,
    ]?;
    let lines = vec![in alloc;
        Partition::from_parts(&[4])?,
        Partition::from_parts(&[2, 2])?,
        Partition::from_parts(&[1, 1, 1, 1])?,
    ]?;
    let cells = vec![in alloc;
        row(alloc, &[ONE, ZERO])?,
        row(alloc, &[ONE, ONE])?,
        row(alloc, &[ZERO, ONE])?,
    ]?;
    Ok(Grid::build(alloc, 4, columns, lines, cells)?)
}

// The matrix of degree 0.
fn degree_none(alloc: Global) -> Result<Grid, Fail> {
    let columns = vec![in alloc; Partition::empty()]?;
    let lines = vec![in alloc; Partition::empty()]?;
    let cells = vec![in alloc; row(alloc, &[ONE])?]?;
    Ok(Grid::build(alloc, 0, columns, lines, cells)?)
}

// The matrix of degree 3 for e = 2.
fn degree_three(alloc: Global) -> Result<Grid, Fail> {
    let columns = vec![in alloc;
        Partition::from_parts(&[3])?,
        Partition::from_parts(&[2, 1])?,
    ]?;
    let lines = vec![in alloc;
        Partition::from_parts(&[3])?,
        Partition::from_parts(&[2, 1])?,
        Partition::from_parts(&[1, 1, 1])?,
    ]?;
    let cells = vec![in alloc;
        row(alloc, &[ONE, ZERO])?,
        row(alloc, &[ZERO, ONE])?,
        row(alloc, &[(1, 1), ZERO])?,
    ]?;
    Ok(Grid::build(alloc, 3, columns, lines, cells)?)
}

// A table with signs, coefficients and negative powers. It isn't the matrix of anything.
fn signs(alloc: Global) -> Result<Grid, Fail> {
    let columns = vec![in alloc;
        Partition::from_parts(&[3])?,
        Partition::from_parts(&[2, 1])?,
    ]?;
    let lines = vec![in alloc;
        Partition::from_parts(&[3])?,
        Partition::from_parts(&[2, 1])?,
        Partition::from_parts(&[1, 1, 1])?,
    ]?;
    let above = Laurent::monomial(alloc, 2, -1)?.lift(alloc, 4)?;
    let below = Laurent::monomial(alloc, -1, -1)?.lift(alloc, 2)?;
    let cells = vec![in alloc;
        vec![in alloc; above, Laurent::zero(alloc)]?,
        vec![in alloc; Laurent::monomial(alloc, -3, 0)?, below]?,
        row(alloc, &[(-1, -2), (2, 2)])?,
    ]?;
    Ok(Grid::build(alloc, 3, columns, lines, cells)?)
}

#[test]
fn paints_degree_five(rt: HostRuntime) -> Result<(), Fail> {
    let alloc = rt.alloc();
    let grid = degree_five(alloc)?;
    assert_eq!(rt;
        page_by(alloc, &mut Plain::new(), &grid)?.as_slice(),
        b"= columns 5 4,1 3,2\n5: 1 . .\n4,1: . 1 .\n3,2: . . 1\n3,1^2: v . v\n\
          2^2,1: . . v^2\n2,1^3: . v .\n1^5: v^2 . .\n"
            .as_slice()
    );
    assert_eq!(rt;
        page_by(alloc, &mut Tex::new(), &grid)?.as_slice(),
        b"= % table 1\n\\begin{tabular}{l|ccc}\n & $5$ & $4,1$ & $3,2$ \\\\\n$5$ & $1$ & . & . \\\\\n\
          $4,1$ & . & $1$ & . \\\\\n$3,2$ & . & . & $1$ \\\\\n$3,1^{2}$ & $v$ & . & $v$ \\\\\n\
          $2^{2},1$ & . & . & $v^{2}$ \\\\\n$2,1^{3}$ & . & $v$ & . \\\\\n\
          $1^{5}$ & $v^{2}$ & . & . \\\\\n\\end{tabular}\n"
            .as_slice()
    );
    assert_eq!(rt;
        page_by(alloc, &mut Gap::new(), &grid)?.as_slice(),
        b"= m1 := [[1,0,0],[0,1,0],[0,0,1],[v,0,v],[0,0,v^2],[0,v,0],[v^2,0,0]];\n".as_slice()
    );
    Ok(())
}

#[test]
fn paints_degree_four(rt: HostRuntime) -> Result<(), Fail> {
    let alloc = rt.alloc();
    let mut plain = Plain::new();
    assert_eq!(rt;
        page_by(alloc, &mut plain, &degree_four(alloc)?)?.as_slice(),
        b"= columns 4 3,1 2^2 2,1^2\n4: 1 . . .\n3,1: . 1 . .\n2^2: v . 1 .\n2,1^2: . . . 1\n1^4: . . v .\n".as_slice()
    );
    assert_eq!(rt;
        page_by(alloc, &mut plain, &block(alloc)?)?.as_slice(),
        b"= columns 4 2^2\n4: 1 .\n2^2: 1 1\n1^4: . 1\n".as_slice()
    );
    let mut text = Vec::new(alloc);
    plain.trailer(alloc, &mut text)?;
    assert_eq!(rt; text.len(), 0);
    Ok(())
}

#[test]
fn paints_degree_none(rt: HostRuntime) -> Result<(), Fail> {
    let alloc = rt.alloc();
    let grid = degree_none(alloc)?;
    assert_eq!(rt;
        page_by(alloc, &mut Plain::new(), &grid)?.as_slice(),
        b"= columns -\n-: 1\n".as_slice()
    );
    assert_eq!(rt;
        page_by(alloc, &mut Tex::new(), &grid)?.as_slice(),
        b"= % table 1\n\\begin{tabular}{l|c}\n & $-$ \\\\\n$-$ & $1$ \\\\\n\\end{tabular}\n".as_slice()
    );
    assert_eq!(rt;
        page_by(alloc, &mut Gap::new(), &grid)?.as_slice(),
        b"= m1 := [[1]];\n".as_slice()
    );
    Ok(())
}

#[test]
fn paints_signs(rt: HostRuntime) -> Result<(), Fail> {
    let alloc = rt.alloc();
    let grid = signs(alloc)?;
    assert_eq!(rt;
        page_by(alloc, &mut Plain::new(), &grid)?.as_slice(),
        b"= columns 3 2,1\n3: 2v^-1+2v .\n2,1: -3 -v^-1-v\n1^3: -v^-2 2v^2\n".as_slice()
    );
    assert_eq!(rt;
        page_by(alloc, &mut Tex::new(), &grid)?.as_slice(),
        b"= % table 1\n\\begin{tabular}{l|cc}\n & $3$ & $2,1$ \\\\\n$3$ & $2v^{-1}+2v$ & . \\\\\n\
          $2,1$ & $-3$ & $-v^{-1}-v$ \\\\\n$1^{3}$ & $-v^{-2}$ & $2v^{2}$ \\\\\n\\end{tabular}\n"
            .as_slice()
    );
    assert_eq!(rt;
        page_by(alloc, &mut Gap::new(), &grid)?.as_slice(),
        b"= m1 := [[2*v^-1+2*v,0],[-3,-v^-1-v],[-v^-2,2*v^2]];\n".as_slice()
    );
    Ok(())
}

// A painter of another maker: tables under a name of its own.
#[derive(Drop)]
struct Slides {
    pages: u64,
}

impl Painter for Slides {
    ghost state = { λ p. record { name = codes "slides"; form = tex_form; pages = p.pages } };

    fn name(&self) -> &str {
        "slides"
    }

    fn page(&mut self, alloc: Global, grid: &Grid, out: &mut Vec<u8>) -> Result<(), AllocError> {
        let pages = self.pages.saturating_add(1);
        put_page(alloc, Form::Tex, pages, grid, out)?;
        self.pages = pages;
        Ok(())
    }

    fn trailer(&self, _alloc: Global, out: &mut Vec<u8>) -> Result<(), AllocError> {
        put_trailer(Form::Tex, self.pages, out)
    }
}

// The page of a painter in a box, and its trailer after it.
fn put_both(
    alloc: Global,
    painter: &mut Box<dyn Painter>,
    grid: &Grid,
    out: &mut Vec<u8>,
) -> Result<(), AllocError> {
    painter.page(alloc, grid, out)?;
    painter.trailer(alloc, out)
}

#[test]
fn chooses_by_names(rt: HostRuntime) -> Result<(), Fail> {
    let alloc = rt.alloc();
    let mut painters: Vec<Box<dyn Painter>> = Vec::new(alloc);
    painters.push(Box::new(alloc, Plain::new())?)?;
    painters.push(Box::new(alloc, Slides { pages: u64::MAX })?)?;
    painters.push(Box::new(alloc, Gap::new())?)?;
    painters.push(Box::new(alloc, Slides { pages: 0 })?)?;
    assert_eq!(rt; choose(&painters, b"slides"), Some(1));
    assert_eq!(rt; choose(&painters, b"gap"), Some(2));
    assert_eq!(rt; choose(&painters, b"pdf"), None);
    assert_eq!(rt; choose(&painters, b"plai"), None);
    assert_eq!(rt; painters.len(), 4);

    let mut text = Vec::new(alloc);
    put_both(alloc, &mut painters[1], &degree_none(alloc)?, &mut text)?;
    assert_eq!(rt;
        text.as_slice(),
        b"% table 18446744073709551615\n\\begin{tabular}{l|c}\n & $-$ \\\\\n$-$ & $1$ \\\\\n\\end{tabular}\n\
          % tables 18446744073709551615\n"
            .as_slice()
    );
    text.truncate(0);
    put_both(alloc, &mut painters[2], &degree_three(alloc)?, &mut text)?;
    assert_eq!(rt;
        text.as_slice(),
        b"m1 := [[1,0],[0,1],[v,0]];\n# matrices 1\n".as_slice()
    );
    Ok(())
}
