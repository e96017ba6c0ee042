// Why the dimensions of the simple modules were refused.
ghost use Rattle.std.specs.Prelude.{◌≡◌};
ghost use Rattle.sp_dims.specs.declared.fault.DimsFault.TheVariants.{Memory};

use sp_partition::Partition;
use std::alloc::AllocError;
use thiserror::Error;

/// Why the dimensions of the simple modules were refused.
#[derive(Clone, Copy, Debug, Error)]
pub enum DimsFault {
    /// The dimension weight at this column passes the limit.
    #[error("dimensions too large")]
    TooLarge { at: Partition },
    /// Memory ran out.
    #[error("out of memory")]
    Memory,
}

impl From<AllocError> for DimsFault {
    ghost from_gives = { λ _ fault. fault ≡ Memory };

    fn from(_error: AllocError) -> DimsFault {
        DimsFault::Memory
    }
}
