// One entry, with the earlier ones that it needs.
ghost use Rattle.std.specs.Prelude.{◌≡◌, ◌<◌, length, get_or, IfOk, OnOk, replicate, None as Nothing, Some as Just};
ghost use Rattle.sp_llt.specs.Place.{labels, place};
ghost use Rattle.sp_llt.specs.Table.{IsTable};

use crate::{Builder, Ctx, Entry};
use std::alloc::{AllocError, Global};

/// The entry of one rank. Each earlier entry that it needs is made once.
pub fn entry_alone(alloc: Global, ctx: &Ctx, k: usize) -> Result<Entry, AllocError>
    requires { k < length (labels ctx.now) }
    ensures { IfOk result (λ entry. entry ≡ place ctx.now k) }
{
    let mut table = empty_table(alloc, k)?;
    table.push(None)?;
    fill(alloc, ctx, &mut table, k)?;
    match table.pop() {
        Some(Some(entry)) => Ok(entry),
        _ => unreachable!(),
    }
}

// A table without entries.
fn empty_table(alloc: Global, count: usize) -> Result<Vec<Option<Entry>>, AllocError>
    ensures { IfOk result (λ table. table.items ≡ replicate count Nothing) }
{
    let mut table = Vec::new(alloc);
    for filled in 0..count {
        table.push(None)?;
    }
    Ok(table)
}

// Puts the entry of a rank into the table, if it isn't there, with the earlier ones that it needs.
fn fill(
    alloc: Global,
    ctx: &Ctx,
    table: &mut Vec<Option<Entry>>,
    k: usize,
) -> Result<(), AllocError>
    requires rank { k < length (labels ctx.now) }
    requires room { k < length table.old.items }
    requires table { IsTable ctx.now table.old.items }
    ensures filled { OnOk result (get_or table.new.items k Nothing ≡ Just (place ctx.now k)) }
    ensures room { OnOk result (length table.new.items ≡ length table.old.items) }
    ensures table { OnOk result (IsTable ctx.now table.new.items) }
{
    if table[k].is_some() {
        return Ok(());
    }
    let mut builder = Builder::begin(alloc, ctx, k)?;
    while let Some(j) = builder.ask() {
        fill(alloc, ctx, table, j)?;
        match &table[j] {
            Some(entry) => builder = builder.give(entry)?,
            None => unreachable!(),
        }
    }
    table[k] = Some(builder.finish());
    Ok(())
}
