// The answer to `certificate`.
ghost use Rattle.std.specs.Prelude.{◌≡◌, ◌++◌, ◌≤◌, ◌<◌, ◌^◌, OnOk};
ghost use Rattle.sp_session.specs.Certificates.{certificate_reply};

use crate::fillers::Filler;
use sp_cert::write;
use sp_llt::{Ctx, RowsFault};
use sp_partition::DEGREE_LIMIT;
use sp_replies::{Refusal, put_refusal};
use std::alloc::{AllocError, Global};

/// The certificate of all rows of a degree, or the greatest column that is refused. An `Err` leaves `out` unspecified.
#[tactic(auto, unfolding(crate::specs::Certificates::certificate_reply))]
pub(crate) fn put_certificate<F: Filler>(
    alloc: Global,
    limit: u128,
    filler: &F,
    e: u8,
    n: u8,
    out: &mut Vec<u8>,
) -> Result<(), AllocError>
    requires least { 1 ≤ limit }
    requires most { limit < 2 ^ 127 }
    requires e_least { 2 ≤ e }
    requires e_most { e ≤ 64 }
    requires small { n ≤ DEGREE_LIMIT }
    ensures { OnOk result (out.new.items ≡ out.old.items ++ certificate_reply limit e n) }
{
    let ctx = Ctx::open_for_all(alloc, e, n, limit)?;
    let rows = filler.fill(alloc, &ctx)?;
    match write(alloc, &ctx, &rows, out) {
        Ok(()) => Ok(()),
        Err(RowsFault::Refused(refused)) => put_refusal(alloc, &Refusal::from(refused), out),
        Err(RowsFault::Memory) => Err(AllocError),
    }
}
