// The rows of the columns of a table.
ghost use Rattle.std.specs.Prelude.{◌≡◌, ◌++◌, ◌∷◌, [], IfOk, IfErr, OnOk, IsErrOf};
ghost use Rattle.std.specs.Prelude.{map, reverse, None as Nothing, Some as Just};
ghost use Rattle.sp_llt.specs.Place.{labels};
ghost use Rattle.sp_llt.specs.Filled.{IsFilled};
ghost use Rattle.sp_matrix.specs.Refusal.{refused_column};
ghost use Rattle.sp_matrix.specs.Scope.{within};
ghost use Rattle.sp_matrix.specs.Walk.{row_of, vectors_of};

use crate::scope::Scope;
use sp_fock::Vector;
use sp_llt::{Ctx, Entry, FirstRefused, RowsFault};
use std::alloc::Global;
use std::sync::Arc;

// The rows of the columns within the scope, by descending columns.
pub(crate) fn column_rows<'a>(
    alloc: Global,
    ctx: &Ctx,
    rows: &'a [Arc<Entry>],
    scope: &Scope,
) -> Result<Vec<&'a Vector>, RowsFault>
    requires { IsFilled ctx.now rows.now }
    ensures rows { IfOk result (λ list. vectors_of list.items ≡
        map (row_of ctx.now.e ctx.now.degree) (within ctx.now.e scope.now (reverse (labels ctx.now)))) }
    ensures whole { OnOk result
        (refused_column ctx.now.e ctx.now.limit (within ctx.now.e scope.now (reverse (labels ctx.now))) ≡ Nothing) }
    ensures refused { (refused : FirstRefused) → IsErrOf result (RowsFault.Refused refused) →
        refused_column ctx.now.e ctx.now.limit (within ctx.now.e scope.now (reverse (labels ctx.now))) ≡ Just refused }
{
    let e = ctx.key().e;
    let mut list = Vec::new(alloc);
    for k in (0..rows.len()).rev() {
        let entry: &Entry = &rows[k];
        if scope.has(e, entry.mu()) {
            match entry.row() {
                Ok(row) => push(&mut list, row)?,
                Err(why) => {
                    return Err(RowsFault::Refused(FirstRefused {
                        mu: *entry.mu(),
                        why,
                    }));
                }
            }
        }
    }
    Ok(list)
}

fn push<'a>(list: &mut Vec<&'a Vector>, row: &'a Vector) -> Result<(), RowsFault>
    ensures more { OnOk result (list.new.items ≡ list.old.items ++ row.entry ∷ []) }
    ensures memory { IfErr result (λ fault. fault ≡ RowsFault.Memory) }
{
    match list.push(row) {
        Ok(()) => Ok(()),
        Err(_) => Err(RowsFault::Memory),
    }
}
