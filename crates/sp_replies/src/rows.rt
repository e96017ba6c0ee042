// Answers on rows.
ghost use Rattle.std.specs.Prelude.{◌≡◌, ◌++◌, ◌≤◌, ◌<◌, ◌^◌, true, length, OnOk};
ghost use Rattle.sp_defs.specs.Partition.{IsPartition, degree as degree_of, is_regular};
ghost use Rattle.sp_lang.specs.Convention.{label_in};
ghost use Rattle.sp_llt.specs.Place.{label as label_at, labels};
ghost use Rattle.sp_replies.specs.Rows.{row_text};

use crate::labels::{put_vector_in, refusal_in};
use crate::refusals::{Refusal, put_refusal};
use sp_lang::Convention;
use sp_llt::{Ctx, entry_alone};
use sp_partition::{DEGREE_LIMIT, Partition, rank};
use std::alloc::{AllocError, Global};

/// The row of the partition that a label stands for, in the labels of the convention, or why there is none. An `Err`
/// leaves `out` unspecified.
pub fn put_row(
    alloc: Global,
    limit: u128,
    convention: Convention,
    e: u8,
    label: &Partition,
    out: &mut Vec<u8>,
) -> Result<(), AllocError>
    requires least { 1 ≤ limit }
    requires most { limit < 2 ^ 127 }
    requires e_least { 2 ≤ e }
    requires e_most { e ≤ 64 }
    requires degree { degree_of label.now ≤ DEGREE_LIMIT }
    requires regular { is_regular e (label_in convention label.now) ≡ true }
    ensures { OnOk result (out.new.items ≡ out.old.items ++ row_text limit convention e label.now) }
{
    let degree = label.degree();
    let mu = convention.label(label);
    let ctx = Ctx::open(alloc, e, degree, limit)?;
    let entry = entry_alone(alloc, &ctx, rank_of(&ctx, &mu))?;
    match entry.row() {
        Ok(row) => put_vector_in(alloc, convention, row, out),
        Err(why) => put_refusal(alloc, &refusal_in(convention, &Refusal::from(why)), out),
    }
}

/// The rank of an e-regular partition of the context's degree.
pub(crate) fn rank_of(ctx: &Ctx, mu: &Partition) -> usize
    requires partition { IsPartition mu.now }
    requires degree { degree_of mu.now ≡ ctx.now.degree }
    requires regular { is_regular ctx.now.e mu.now ≡ true }
    ensures below { result < length (labels ctx.now) }
    ensures label { label_at ctx.now result ≡ mu.now }
{
    match rank(ctx.regulars(), mu) {
        Some(k) => k,
        None => unreachable!(),
    }
}
