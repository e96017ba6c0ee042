// The list of all entries, from those that workers have made.
ghost use Rattle.std.specs.Prelude.{◌≡◌, ◌<◌, IfOk, length};
ghost use Rattle.std.specs.Arc.{arc_value};
ghost use Rattle.sp_llt.specs.Place.{labels, place};
ghost use Rattle.sp_llt.specs.Filled.{IsFilled, HasFirst};

use crate::alone::entry_from;
use sp_llt::{Ctx, Entry};
use std::alloc::{AllocError, Global};
use std::sync::Arc;

/// Where finished rows are looked for.
pub(crate) trait Finished {
    /// What is there for a rank, if anything is. Whether it is the entry of that rank is for the caller to test.
    fn find(&self, k: usize) -> Option<&Arc<Entry>>;
}

/// The entries of all ranks, ascending: each one that is found, or else made here.
pub(crate) fn collect<F: Finished>(
    alloc: Global,
    ctx: &Ctx,
    finished: &F,
) -> Result<Vec<Arc<Entry>>, AllocError>
    ensures { IfOk result (λ rows. IsFilled ctx.now rows.items) }
{
    let mut rows = Vec::new(alloc);
    for k in 0..ctx.regulars().len() {
        let row = row_of(alloc, ctx, finished, &rows, k)?;
        rows.push(row)?;
    }
    Ok(rows)
}

// The entry of a rank, if it is found, or else made from those of all ranks below it.
fn row_of<F: Finished>(
    alloc: Global,
    ctx: &Ctx,
    finished: &F,
    rows: &[Arc<Entry>],
    k: usize,
) -> Result<Arc<Entry>, AllocError>
    requires rank { k < length (labels ctx.now) }
    requires rows { HasFirst ctx.now k rows.now }
    ensures { IfOk result (λ row. arc_value row ≡ place ctx.now k) }
{
    match finished.find(k) {
        Some(row) if row.is_of(ctx, k) => Ok(Arc::try_clone(row)?),
        _ => Ok(Arc::new(alloc, entry_from(alloc, ctx, rows, k)?)?),
    }
}
