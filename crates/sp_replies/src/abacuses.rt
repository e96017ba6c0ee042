// Answers on cores, quotients and the abacus.
ghost use Rattle.std.specs.Prelude.{◌≡◌, ◌++◌, ◌≤◌, OnOk};
ghost use Rattle.sp_replies.specs.Abacuses.{core_text, combined_text};

use crate::orders::put_line;
use crate::refusals::{Refusal, put_refusal};
use crate::words::{Word, put_joined};
use sp_abacus::{combine, core, quotient, weight};
use sp_partition::{CAPACITY, Partition};
use std::alloc::{AllocError, Global};

/// The core, the weight and the quotient. An `Err` leaves `out` unspecified, here and below.
pub fn put_core(alloc: Global, e: u8, p: &Partition, out: &mut Vec<u8>) -> Result<(), AllocError>
    requires e_least { 2 ≤ e }
    requires e_most { e ≤ 64 }
    ensures { OnOk result (out.new.items ≡ out.old.items ++ core_text e p.now) }
{
    out.extend_from_slice(b"core ")?;
    core(e, p).put(alloc, out)?;
    out.extend_from_slice(b" weight ")?;
    weight(e, p).put(alloc, out)?;
    out.extend_from_slice(b" quotient ")?;
    put_joined(alloc, b"|", quotient(e, p).as_slice(), out)?;
    out.extend_from_slice(b"\n")
}

/// The partition with this core and this quotient, or why there is none.
pub fn put_combined(
    alloc: Global,
    e: u8,
    kappa: &Partition,
    quotient: &[Partition],
    out: &mut Vec<u8>,
) -> Result<(), AllocError>
    requires e_least { 2 ≤ e }
    requires e_most { e ≤ 64 }
    ensures { OnOk result (out.new.items ≡ out.old.items ++ combined_text e kappa.now quotient.now) }
{
    match combine(e, kappa, quotient) {
        Ok(p) => {
            // the proof needs what the type keeps: a partition of at most the capacity
            prove!(p.degree() <= CAPACITY);
            put_line(alloc, &p, out)
        }
        Err(fault) => put_refusal(alloc, &Refusal::from(fault), out),
    }
}
