// The lines and the columns of a table.
ghost use Rattle.std.specs.Prelude.{◌≡◌, ◌≤◌, IfOk, reverse};
ghost use Rattle.sp_matrix.specs.Scope.{within};

use crate::scope::Scope;
use sp_partition::Partition;
use std::alloc::{AllocError, Global};

// Those of the ascending partitions that are within the scope, descending.
pub(crate) fn heading(
    alloc: Global,
    e: u8,
    scope: &Scope,
    partitions: &[Partition],
) -> Result<Vec<Partition>, AllocError>
    requires e_least { 2 ≤ e }
    requires e_most { e ≤ 64 }
    ensures { IfOk result (λ list. list.items ≡ within e scope.now (reverse partitions.now)) }
{
    let mut list = Vec::new(alloc);
    for k in (0..partitions.len()).rev() {
        let p = &partitions[k];
        if scope.has(e, p) {
            list.push(*p)?;
        }
    }
    Ok(list)
}
