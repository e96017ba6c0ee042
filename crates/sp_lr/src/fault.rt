// Why fillings were not listed or counted.
ghost use Rattle.std.specs.Prelude.{◌≡◌};
ghost use Rattle.sp_lr.specs.declared.fault.LrFault.TheVariants.{Memory};

use std::alloc::AllocError;
use thiserror::Error;

/// Why fillings were not listed or counted.
#[derive(Clone, Copy, Debug, PartialEq, Eq, Error)]
pub enum LrFault {
    /// There are more of them than were asked for.
    #[error("too many fillings")]
    TooMany,
    /// Memory ran out.
    #[error("out of memory")]
    Memory,
}

impl From<AllocError> for LrFault {
    ghost from_gives = { λ _ fault. fault ≡ Memory };

    fn from(_error: AllocError) -> LrFault {
        LrFault::Memory
    }
}
