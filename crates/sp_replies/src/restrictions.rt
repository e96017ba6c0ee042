// Answers on restrictions of vectors and rows.
ghost use Rattle.std.specs.Prelude.{◌≡◌, ◌++◌, ◌≤◌, ◌<◌, ◌^◌, true, IfOk, OnOk};
ghost use Rattle.sp_defs.specs.Partition.{degree as degree_of, is_regular};
ghost use Rattle.sp_defs.specs.Power.{fock_vector, vector_of};
ghost use Rattle.sp_defs.specs.Row.{regular_row};
ghost use Rattle.sp_llt.specs.Found.{outcome_told};
ghost use Rattle.sp_llt.specs.Place.{label};
ghost use Rattle.sp_llt.specs.Refusals.{outcome_at};
ghost use Rattle.sp_power.specs.Arrivals.{half_power_limit, AllWithin};
ghost use Rattle.sp_replies.specs.Restrictions.{restricted_text, commutator_text, branch_text};
ghost use Rattle.sp_replies.specs.Restrictions.{restriction_or_refusal, commutator_or_refusal};

use crate::refusals::{Refusal, put_refusal};
use crate::rows::rank_of;
use crate::vectors::{put_vector, unit_vector};
use sp_fock::Vector;
use sp_llt::{Ctx, Entry, Refused, entry_alone};
use sp_partition::{DEGREE_LIMIT, Partition};
use sp_power::PowerFault;
use sp_sl2::{commutator, restrict};
use std::alloc::{AllocError, Global};

/// The restriction `e_i` of one partition, which is never too large. An `Err` leaves `out` unspecified, here and below.
pub fn put_restriction(
    alloc: Global,
    limit: u128,
    e: u8,
    i: u8,
    p: &Partition,
    out: &mut Vec<u8>,
) -> Result<(), AllocError>
    requires least { 1 ≤ limit }
    requires most { limit < 2 ^ 127 }
    requires e_least { 2 ≤ e }
    requires e_most { e ≤ 64 }
    requires below { i < e }
    ensures { OnOk result (out.new.items ≡ out.old.items ++ restricted_text e i p.now) }
{
    let one = unit_vector(alloc, p)?;
    put_restricted(alloc, limit, e, i, &one, out)
}

/// The commutator `e_i f_j - f_j e_i` on one partition, or that it is too large.
pub fn put_commutator(
    alloc: Global,
    limit: u128,
    e: u8,
    i: u8,
    j: u8,
    p: &Partition,
    out: &mut Vec<u8>,
) -> Result<(), AllocError>
    requires least { 1 ≤ limit }
    requires most { limit < 2 ^ 127 }
    requires e_least { 2 ≤ e }
    requires e_most { e ≤ 64 }
    requires first_below { i < e }
    requires second_below { j < e }
    ensures { OnOk result (out.new.items ≡ out.old.items ++ commutator_text limit e i j p.now) }
{
    let one = unit_vector(alloc, p)?;
    put_commuted(alloc, limit, e, i, j, &one, out)
}

/// The restriction `e_i` of the row of an e-regular partition, or why there is none: the row is refused, or its
/// restriction is too large.
pub fn put_branch(
    alloc: Global,
    limit: u128,
    e: u8,
    i: u8,
    mu: &Partition,
    out: &mut Vec<u8>,
) -> Result<(), AllocError>
    requires least { 1 ≤ limit }
    requires most { limit < 2 ^ 127 }
    requires e_least { 2 ≤ e }
    requires e_most { e ≤ 64 }
    requires below { i < e }
    requires degree { degree_of mu.now ≤ DEGREE_LIMIT }
    requires regular { is_regular e mu.now ≡ true }
    ensures { OnOk result (out.new.items ≡ out.old.items ++ branch_text limit e i mu.now) }
{
    let ctx = Ctx::open(alloc, e, mu.degree(), limit)?;
    let entry = entry_alone(alloc, &ctx, rank_of(&ctx, mu))?;
    match bounded_row(&entry) {
        Ok(row) => put_restricted(alloc, limit, e, i, row, out),
        Err(why) => put_refusal(alloc, &Refusal::from(why), out),
    }
}

// The row of an entry, whose powers leave room for exponents, or why there is none.
fn bounded_row(entry: &Entry) -> Result<&Vector, Refused>
    ensures outcome { outcome_told result ≡ outcome_at entry.now }
    ensures row { IfOk result (λ w. w.now ≡ fock_vector entry.now.key.degree
        (regular_row entry.now.key.e (label entry.now.key entry.now.rank))) }
    ensures powers { IfOk result (λ w. AllWithin half_power_limit w.now.entries) }
{
    let _held = entry.mu();
    let _within = entry.regular_row();
    entry.row()
}

// The restriction of a vector, or that it is too large.
fn put_restricted(
    alloc: Global,
    limit: u128,
    e: u8,
    i: u8,
    v: &Vector,
    out: &mut Vec<u8>,
) -> Result<(), AllocError>
    requires least { 1 ≤ limit }
    requires most { limit < 2 ^ 127 }
    requires e_least { 2 ≤ e }
    requires e_most { e ≤ 64 }
    requires below { i < e }
    requires powers { AllWithin half_power_limit v.now.entries }
    ensures { OnOk result (out.new.items
        ≡ out.old.items ++ restriction_or_refusal limit e i v.now.degree (vector_of v.now.entries)) }
{
    match restrict(alloc, e, i, v, limit) {
        Ok(vector) => put_vector(alloc, &vector, out),
        Err(PowerFault::Memory) => Err(AllocError),
        Err(PowerFault::TooLarge) => put_refusal(alloc, &Refusal::TooLarge, out),
    }
}

// The commutator on a vector, or that it is too large.
fn put_commuted(
    alloc: Global,
    limit: u128,
    e: u8,
    i: u8,
    j: u8,
    v: &Vector,
    out: &mut Vec<u8>,
) -> Result<(), AllocError>
    requires least { 1 ≤ limit }
    requires most { limit < 2 ^ 127 }
    requires e_least { 2 ≤ e }
    requires e_most { e ≤ 64 }
    requires first_below { i < e }
    requires second_below { j < e }
    requires powers { AllWithin half_power_limit v.now.entries }
    ensures { OnOk result (out.new.items
        ≡ out.old.items ++ commutator_or_refusal limit e i j v.now.degree (vector_of v.now.entries)) }
{
    match commutator(alloc, e, i, j, v, limit) {
        Ok(vector) => put_vector(alloc, &vector, out),
        Err(PowerFault::Memory) => Err(AllocError),
        Err(PowerFault::TooLarge) => put_refusal(alloc, &Refusal::TooLarge, out),
    }
}
