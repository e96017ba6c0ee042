// Why an operation on grids was refused.
ghost use Rattle.std.specs.Prelude.{◌≡◌};
ghost use Rattle.sp_inverse.specs.declared.fault.GridFault.TheVariants.{Memory};

use sp_partition::Partition;
use std::alloc::AllocError;
use thiserror::Error;

/// Why an operation on grids was refused.
#[derive(Clone, Copy, Debug, Error)]
pub enum GridFault {
    /// A sum of sizes in this column passes the limit. It is the greatest such column.
    #[error("grid too large")]
    TooLarge { at: Partition },
    /// Memory ran out.
    #[error("out of memory")]
    Memory,
}

impl From<AllocError> for GridFault {
    ghost from_gives = { λ _ fault. fault ≡ Memory };

    fn from(_error: AllocError) -> GridFault {
        GridFault::Memory
    }
}
