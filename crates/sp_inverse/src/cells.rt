// The cells of a line, one by one.
ghost use Rattle.std.specs.Prelude.{◌≡◌, ◌<◌, ◌++◌, ◌∷◌, [], length, IfOk, OnOk};
ghost use Rattle.sp_defs.specs.Laurent.{negate};
ghost use Rattle.sp_fock_law.specs.Grid.{row_of};

use sp_fock::Grid;
use sp_laurent::Laurent;
use std::alloc::{AllocError, Global};

// Appends a line.
pub(crate) fn push_line(
    lines: &mut Vec<Vec<(usize, Laurent)>>,
    line: Vec<(usize, Laurent)>,
) -> Result<(), AllocError>
    ensures { OnOk result (lines.new.items ≡ lines.old.items ++ line ∷ []) }
{
    lines.push(line)?;
    Ok(())
}

// Appends the negation of a polynomial.
pub(crate) fn push_negated(
    alloc: Global,
    cells: &mut Vec<Laurent>,
    p: &Laurent,
) -> Result<(), AllocError>
    ensures { OnOk result (cells.new.items ≡ cells.old.items ++ negate p.now ∷ []) }
{
    cells.push(p.negate(alloc)?)?;
    Ok(())
}

// All cells of a line.
pub(crate) fn whole_line(alloc: Global, g: &Grid, line: usize) -> Result<Vec<Laurent>, AllocError>
    requires { line < length g.now.lines }
    ensures { IfOk result (λ cells. cells.items ≡ row_of g.now line) }
{
    let mut cells = Vec::new(alloc);
    for cell in g.row(line) {
        cells.push(cell.copy(alloc)?)?;
    }
    Ok(cells)
}
