// The certificate of all rows of a context.
ghost use Rattle.std.specs.Prelude.{◌≡◌, ◌++◌, ◌<◌, ◌≤◌, [], cond, map, reverse, not, length};
ghost use Rattle.std.specs.Prelude.{take, flat_map, IfOk, OnOk, OnErr, IsErrOf};
ghost use Rattle.std.specs.Prelude.{None as Nothing, Some as Just};
ghost use Rattle.std.specs.Arc.{arc_value};
ghost use Rattle.std.specs.List.{list_any};
ghost use Rattle.sp_llt.specs.Filled.{IsFilled};
ghost use Rattle.sp_llt.specs.Place.{label, labels};
ghost use Rattle.sp_llt.specs.Refusals.{first_refusal, outcome_at};
ghost use Rattle.sp_llt.specs.declared.refused.FirstRefused.{FirstRefused as Refusal};
ghost use Rattle.sp_defs.specs.Row.{Row as IsRow};
ghost use Rattle.sp_cert.specs.Order.{same_content, leaders};
ghost use Rattle.sp_cert.specs.Counts.{AreContents};
ghost use Rattle.sp_cert.specs.Texts.{certificate_text, column_text, block_text};
ghost use Rattle.sp_cert.specs.Written.{WrittenFacts};

use crate::contents::{contents_of, is_leader, is_same};
use crate::lines::{put_block_line, put_column_line, put_number_line, put_term_line};
use arrayvec::ArrayVec;
use sp_llt::{Ctx, Entry, RowsFault, first_refused};
use sp_partition::Partition;
use std::alloc::{AllocError, Global};
use std::sync::Arc;

/// Appends the certificate of all rows, in version 2: for each column the shares that aren't 0 and all entries of the
/// row. It is refused where a row is, with the greatest such column, and then nothing is appended.
///
/// By the law of written certificates (`written_law`) what is appended has lines that the grammar allows one after the
/// other, and the last of them ends the certificate of all rows, which `check` accepts under the limit of the context,
/// unless memory runs out.
pub fn write(
    alloc: Global,
    ctx: &Ctx,
    rows: &[Arc<Entry>],
    out: &mut Vec<u8>,
) -> Result<(), RowsFault>
    requires { IsFilled ctx.now rows.now }
    ensures text { OnOk result (out.new.items ≡ out.old.items ++ certificate_text ctx.now.e ctx.now.degree) }
    ensures whole { OnOk result (first_refusal (reverse (map arc_value rows.now)) ≡ Nothing) }
    // the text is read as the certificate of all rows, and each column of that is accepted
    ensures written { OnOk result (WrittenFacts ctx.now) }
    ensures refused { (refused : Refusal) → IsErrOf result (RowsFault.Refused refused) →
        first_refusal (reverse (map arc_value rows.now)) ≡ Just refused }
    ensures kept { OnErr result (out.new.items ≡ out.old.items) }
{
    if let Some(refused) = first_refused(rows) {
        return Err(RowsFault::Refused(refused));
    }
    let Ok(text) = certificate(alloc, ctx, rows) else {
        return Err(RowsFault::Memory);
    };
    match out.extend_from_slice(&text) {
        Ok(()) => Ok(()),
        Err(_) => Err(RowsFault::Memory),
    }
}

// The text of the certificate.
fn certificate(alloc: Global, ctx: &Ctx, rows: &[Arc<Entry>]) -> Result<Vec<u8>, AllocError>
    requires filled { IsFilled ctx.now rows.now }
    requires whole { first_refusal (reverse (map arc_value rows.now)) ≡ Nothing }
    ensures text { IfOk result (λ text. text.items ≡ certificate_text ctx.now.e ctx.now.degree) }
    ensures written { OnOk result (WrittenFacts ctx.now) }
{
    let key = ctx.key();
    let mut text = Vec::new(alloc);
    put_number_line(b"certificate", 2, &mut text)?;
    put_number_line(b"e", key.e, &mut text)?;
    put_number_line(b"degree", key.degree, &mut text)?;
    put_blocks(alloc, ctx, rows, &mut text)?;
    text.extend_from_slice(b"end\n")?;
    Ok(text)
}

// Appends all blocks.
fn put_blocks(
    alloc: Global,
    ctx: &Ctx,
    rows: &[Arc<Entry>],
    out: &mut Vec<u8>,
) -> Result<(), AllocError>
    requires filled { IsFilled ctx.now rows.now }
    requires whole { first_refusal (reverse (map arc_value rows.now)) ≡ Nothing }
    ensures { OnOk result (out.new.items ≡
        out.old.items ++ flat_map (block_text ctx.now.e ctx.now.degree) (leaders ctx.now.e ctx.now.degree)) }
{
    let contents = contents_of(alloc, ctx.key().e, ctx.regulars())?;
    for rank in 0..ctx.regulars().len() {
        put_block_if(alloc, ctx, rows, &contents, rank, out)?;
    }
    Ok(())
}

// Appends the block of a rank's partition, if no earlier one has its content.
fn put_block_if(
    alloc: Global,
    ctx: &Ctx,
    rows: &[Arc<Entry>],
    contents: &[ArrayVec<u8, 64>],
    rank: usize,
    out: &mut Vec<u8>,
) -> Result<(), AllocError>
    requires rank { rank < length (labels ctx.now) }
    requires contents { AreContents ctx.now.e (labels ctx.now) contents.now }
    requires filled { IsFilled ctx.now rows.now }
    requires whole { first_refusal (reverse (map arc_value rows.now)) ≡ Nothing }
    ensures { OnOk result (out.new.items ≡ out.old.items ++
        cond (not (list_any (same_content ctx.now.e (label ctx.now rank)) (take rank (labels ctx.now))))
        (block_text ctx.now.e ctx.now.degree (label ctx.now rank)) []) }
{
    if is_leader(contents, rank) {
        put_block(alloc, ctx, rows, contents, rank, out)?;
    }
    Ok(())
}

// Appends the block of a partition.
fn put_block(
    alloc: Global,
    ctx: &Ctx,
    rows: &[Arc<Entry>],
    contents: &[ArrayVec<u8, 64>],
    leader: usize,
    out: &mut Vec<u8>,
) -> Result<(), AllocError>
    requires leader { leader < length (labels ctx.now) }
    requires contents { AreContents ctx.now.e (labels ctx.now) contents.now }
    requires filled { IsFilled ctx.now rows.now }
    requires whole { first_refusal (reverse (map arc_value rows.now)) ≡ Nothing }
    ensures { OnOk result (out.new.items ≡
        out.old.items ++ block_text ctx.now.e ctx.now.degree (label ctx.now leader)) }
{
    let e = ctx.key().e;
    let mu = &ctx.regulars()[leader];
    put_block_line(e, mu, out)?;
    for rank in 0..ctx.regulars().len() {
        put_column_if(alloc, ctx, rows, contents, leader, rank, out)?;
    }
    Ok(())
}

// Appends the column of a rank, if its partition has the content of the leader.
fn put_column_if(
    alloc: Global,
    ctx: &Ctx,
    rows: &[Arc<Entry>],
    contents: &[ArrayVec<u8, 64>],
    leader: usize,
    rank: usize,
    out: &mut Vec<u8>,
) -> Result<(), AllocError>
    requires leader { leader < length (labels ctx.now) }
    requires rank { rank < length (labels ctx.now) }
    requires row { rank < length rows.now }
    requires contents { AreContents ctx.now.e (labels ctx.now) contents.now }
    requires filled { IsFilled ctx.now rows.now }
    requires whole { first_refusal (reverse (map arc_value rows.now)) ≡ Nothing }
    ensures { OnOk result (out.new.items ≡ out.old.items ++
        cond (same_content ctx.now.e (label ctx.now leader) (label ctx.now rank))
        (column_text ctx.now.e ctx.now.degree (label ctx.now rank)) []) }
{
    if is_same(contents, leader, rank) {
        put_column(alloc, ctx, &rows[rank], out)?;
    }
    Ok(())
}

// Appends the column of a row.
fn put_column(alloc: Global, ctx: &Ctx, entry: &Entry, out: &mut Vec<u8>) -> Result<(), AllocError>
    requires key { entry.now.key ≡ ctx.now }
    requires fits { outcome_at entry.now ≡ IsRow }
    ensures { OnOk result (out.new.items ≡
        out.old.items ++ column_text ctx.now.e ctx.now.degree (label ctx.now entry.now.rank)) }
{
    put_column_line(alloc, entry.mu(), out)?;
    let shares = entry.shares();
    for place in 0..shares.len() {
        let share = &shares[place];
        put_term_line(
            alloc,
            b"share ",
            &ctx.regulars()[share.rank],
            &share.alpha,
            out,
        )?;
    }
    let Some(row) = entry.regular_row() else {
        unreachable!();
    };
    let pairs = row.pairs();
    for place in (0..pairs.len()).rev() {
        put_term_line(alloc, b"entry ", &pairs[place].0, &pairs[place].1, out)?;
    }
    Ok(())
}
