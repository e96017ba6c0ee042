// What is wrong with a certificate.
ghost use Rattle.std.specs.Prelude.{◌≡◌};
ghost use Rattle.sp_cert.specs.declared.fault.CertFault.TheVariants.{Memory};

use sp_partition::Partition;
use std::alloc::AllocError;

/// What is wrong with a certificate, or that memory ran out.
#[derive(Clone, Copy, Debug)]
pub enum CertFault {
    /// The first line, counted from 1, that isn't one of those allowed in its place.
    Malformed { line: u64 },
    /// The first column that fails: a size of what is added up there passes the limit.
    TooLarge { column: Partition },
    /// The first column that fails: it is not the row, or these are not its shares.
    Wrong { column: Partition },
    /// Memory ran out.
    Memory,
}

impl From<AllocError> for CertFault {
    ghost from_gives = { λ _ fault. fault ≡ Memory };

    fn from(_error: AllocError) -> CertFault {
        CertFault::Memory
    }
}
