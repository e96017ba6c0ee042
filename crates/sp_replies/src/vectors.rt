// Answers on ladders and vectors.
ghost use Rattle.std.specs.Prelude.{◌≡◌, ◌++◌, ◌≤◌, ◌<◌, ◌^◌, ◌+◌, true, IfOk, OnOk};
ghost use Rattle.sp_defs.specs.Partition.{IsPartition, degree as degree_of, is_regular};
ghost use Rattle.sp_defs.specs.Power.{fock_vector, unit};
ghost use Rattle.sp_defs.specs.Text.{vector_text};
ghost use Rattle.sp_lang.specs.Convention.{label_in};
ghost use Rattle.sp_replies.specs.Vectors.{induced_text, ladders_text, ladder_vector_text};
ghost use Rattle.sp_replies.specs.Words.{line_of};

use crate::labels::put_vector_in;
use crate::refusals::{Refusal, put_refusal};
use crate::words::put_words;
use sp_fock::Vector;
use sp_ladder::{ladder_vector, ladders};
use sp_lang::Convention;
use sp_partition::{DEGREE_LIMIT, Partition};
use sp_power::{PowerFault, induce};
use std::alloc::{AllocError, Global};

/// The divided power of one partition, which is never too large. An `Err` leaves `out` unspecified, here and below.
pub fn put_induced(
    alloc: Global,
    limit: u128,
    e: u8,
    i: u8,
    m: u8,
    p: &Partition,
    out: &mut Vec<u8>,
) -> Result<(), AllocError>
    requires least { 1 ≤ limit }
    requires most { limit < 2 ^ 127 }
    requires e_least { 2 ≤ e }
    requires e_most { e ≤ 64 }
    requires below { i < e }
    requires room { degree_of p.now + m ≤ DEGREE_LIMIT }
    ensures { OnOk result (out.new.items ≡ out.old.items ++ induced_text e i m p.now) }
{
    let one = unit_vector(alloc, p)?;
    match induce(alloc, e, i, m, &one, limit) {
        Ok(vector) => put_vector(alloc, &vector, out),
        Err(PowerFault::Memory) => Err(AllocError),
        Err(PowerFault::TooLarge) => unreachable!(),
    }
}

/// The vector with 1 at one partition.
pub(crate) fn unit_vector(alloc: Global, p: &Partition) -> Result<Vector, AllocError>
    ensures vector { IfOk result (λ v. v ≡ fock_vector (degree_of p.now) (unit p.now)) }
    ensures partition { IsPartition p.now }
{
    let _held = p.degree();
    Vector::one(alloc, p)
}

/// The ladders, each with its residue and the count of its nodes.
pub fn put_ladders(
    alloc: Global,
    e: u8,
    mu: &Partition,
    out: &mut Vec<u8>,
) -> Result<(), AllocError>
    requires e_least { 2 ≤ e }
    requires e_most { e ≤ 64 }
    ensures { OnOk result (out.new.items ≡ out.old.items ++ ladders_text e mu.now) }
{
    put_words(alloc, ladders(e, mu).as_slice(), out)?;
    out.extend_from_slice(b"\n")
}

/// The ladder vector of the partition that a label stands for, in the labels of the convention, or that it is too
/// large.
pub fn put_ladder_vector(
    alloc: Global,
    limit: u128,
    convention: Convention,
    e: u8,
    label: &Partition,
    out: &mut Vec<u8>,
) -> Result<(), AllocError>
    requires least { 1 ≤ limit }
    requires most { limit < 2 ^ 127 }
    requires e_least { 2 ≤ e }
    requires e_most { e ≤ 64 }
    requires regular { is_regular e (label_in convention label.now) ≡ true }
    ensures { OnOk result (out.new.items ≡ out.old.items ++ ladder_vector_text limit convention e label.now) }
{
    match ladder_vector(alloc, e, &convention.label(label), limit) {
        Ok(vector) => put_vector_in(alloc, convention, &vector, out),
        Err(PowerFault::Memory) => Err(AllocError),
        Err(PowerFault::TooLarge) => put_refusal(alloc, &Refusal::TooLarge, out),
    }
}

/// A vector as a line.
pub(crate) fn put_vector(
    alloc: Global,
    vector: &Vector,
    out: &mut Vec<u8>,
) -> Result<(), AllocError>
    ensures { OnOk result (out.new.items ≡ out.old.items ++ line_of (vector_text vector.now.entries)) }
{
    vector.print(alloc, out)?;
    out.extend_from_slice(b"\n")
}
