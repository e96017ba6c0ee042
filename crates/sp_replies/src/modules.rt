// Answers on one Specht module.
ghost use Rattle.std.specs.Prelude.{◌≡◌, ◌++◌, ◌≤◌, OnOk};
ghost use Rattle.sp_replies.specs.Modules.{dim_text, jantzen_text};

use crate::labels::put_vector_in;
use sp_base::put_number;
use sp_dims::specht_dim;
use sp_jantzen::jantzen;
use sp_lang::Convention;
use sp_partition::Partition;
use std::alloc::{AllocError, Global};

/// The dimension of the Specht module. An `Err` leaves `out` unspecified, here and below.
pub fn put_dim(alloc: Global, p: &Partition, out: &mut Vec<u8>) -> Result<(), AllocError>
    ensures { OnOk result (out.new.items ≡ out.old.items ++ dim_text p.now) }
{
    put_number(alloc, out, specht_dim(p) as i128)?;
    out.extend_from_slice(b"\n")
}

/// The Jantzen sum of the partition that a label stands for, in the labels of the convention.
pub fn put_jantzen(
    alloc: Global,
    convention: Convention,
    e: u8,
    label: &Partition,
    out: &mut Vec<u8>,
) -> Result<(), AllocError>
    requires e_least { 2 ≤ e }
    requires e_most { e ≤ 64 }
    ensures { OnOk result (out.new.items ≡ out.old.items ++ jantzen_text convention e label.now) }
{
    let sum = jantzen(alloc, e, &convention.label(label))?;
    put_vector_in(alloc, convention, &sum, out)
}
