// All entries of a context, made on the caller's thread.
ghost use Rattle.std.specs.Prelude.{◌≡◌, ◌<◌, IfOk, length};
ghost use Rattle.sp_llt.specs.Place.{labels, place};
ghost use Rattle.sp_llt.specs.Filled.{IsFilled, HasFirst};

use sp_llt::{Builder, Ctx, Entry};
use std::alloc::{AllocError, Global};
use std::sync::Arc;

/// The entries of all ranks, ascending. Each is made once, from those before it.
pub fn fill_alone(alloc: Global, ctx: &Ctx) -> Result<Vec<Arc<Entry>>, AllocError>
    ensures { IfOk result (λ rows. IsFilled ctx.now rows.items) }
{
    let mut rows = Vec::new(alloc);
    for k in 0..ctx.regulars().len() {
        let entry = entry_from(alloc, ctx, &rows, k)?;
        rows.push(Arc::new(alloc, entry)?)?;
    }
    Ok(rows)
}

/// The entry of a rank, from those of all ranks below it.
pub(crate) fn entry_from(
    alloc: Global,
    ctx: &Ctx,
    rows: &[Arc<Entry>],
    k: usize,
) -> Result<Entry, AllocError>
    requires rank { k < length (labels ctx.now) }
    requires rows { HasFirst ctx.now k rows.now }
    ensures { IfOk result (λ entry. entry ≡ place ctx.now k) }
{
    let mut builder = Builder::begin(alloc, ctx, k)?;
    while let Some(j) = builder.ask() {
        builder = builder.give(&rows[j])?;
    }
    Ok(builder.finish())
}
