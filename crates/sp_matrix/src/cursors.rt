// Places in rows that are walked from their ends, while the lines of a table descend.
ghost use Rattle.std.specs.Prelude.{◌≡◌, IfOk, length, map};
ghost use Rattle.sp_matrix.specs.Cursors.{IsAt, IsPassed};
ghost use Rattle.sp_matrix.specs.Walk.{vectors_of};

use sp_fock::Vector;
use sp_partition::Partition;
use std::alloc::{AllocError, Global};

// The ends of the rows.
pub(crate) fn ends_of(alloc: Global, rows: &[&Vector]) -> Result<Vec<usize>, AllocError>
    ensures { IfOk result (λ ends. ends.items ≡ map (λ v. length v.entries) (vectors_of rows.now)) }
{
    let mut ends = Vec::new(alloc);
    for row in rows {
        ends.push(row.pairs().len())?;
    }
    Ok(ends)
}

// The end of the pairs up to a line, where what is behind `end` stands at greater lines.
pub(crate) fn end_at(row: &Vector, end: usize, line: &Partition) -> usize
    requires { IsPassed line.now row.now end }
    ensures { IsAt line.now row.now result }
{
    let pairs = row.pairs();
    let mut end = end;
    while end > 0 && pairs[end - 1].0 > *line {
        end -= 1;
    }
    end
}
