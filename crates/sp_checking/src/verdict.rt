// What a whole certificate is answered.
ghost use Rattle.std.specs.Prelude.{◌≡◌, ◌++◌, ◌≤◌, ◌<◌, ◌^◌, OnOk};
ghost use Rattle.sp_checking.specs.Verdict.{IsOfColumns, NamesColumn, accepted_text, failing_text, verdict_text};

use sp_base::put_number;
use sp_cert::{CertFault, Certificate, check};
use sp_replies::{Refusal, put_refusal};
use std::alloc::{AllocError, Global};

/// Appends how many columns are accepted, or the first that fails. An `Err` leaves `out` unspecified, here and below.
pub(crate) fn put_verdict(
    alloc: Global,
    limit: u128,
    certificate: &Certificate,
    out: &mut Vec<u8>,
) -> Result<(), AllocError>
    requires least { 1 ≤ limit }
    requires most { limit < 2 ^ 127 }
    ensures { OnOk result (out.new.items ≡ out.old.items ++ verdict_text limit certificate.now) }
{
    match check(alloc, certificate, limit) {
        Ok(_entries) => put_accepted(alloc, certificate.columns().len(), out),
        Err(fault) => put_failing(alloc, &fault, out),
    }
}

// The first column that fails.
fn put_failing(alloc: Global, fault: &CertFault, out: &mut Vec<u8>) -> Result<(), AllocError>
    requires { IsOfColumns fault.now }
    ensures { OnOk result (NamesColumn fault.now × (out.new.items ≡ out.old.items ++ failing_text fault.now)) }
{
    match fault {
        CertFault::TooLarge { column } => put_refusal(
            alloc,
            &Refusal::LargeColumn { column: *column },
            out,
        ),
        CertFault::Wrong { column } => put_refusal(
            alloc,
            &Refusal::WrongColumn { column: *column },
            out,
        ),
        CertFault::Malformed { .. } => unreachable!(),
        CertFault::Memory => Err(AllocError),
    }
}

fn put_accepted(alloc: Global, count: usize, out: &mut Vec<u8>) -> Result<(), AllocError>
    ensures { OnOk result (out.new.items ≡ out.old.items ++ accepted_text count) }
{
    out.extend_from_slice(b"accepted ")?;
    put_number(alloc, out, count as i128)?;
    out.extend_from_slice(b" columns\n")
}
