// Why an induction was refused.
ghost use Rattle.std.specs.Prelude.{◌≡◌};
ghost use Rattle.sp_power.specs.Fault.{fault_of};
ghost use Rattle.sp_power.specs.declared.fault.PowerFault.TheVariants.{Memory};

use sp_laurent::LaurentFault;
use std::alloc::AllocError;
use thiserror::Error;

/// Why an induction was refused.
#[derive(Clone, Copy, Debug, PartialEq, Eq, Error)]
pub enum PowerFault {
    /// The sizes that meet at one partition pass the limit.
    #[error("induction too large")]
    TooLarge,
    #[error("out of memory")]
    Memory,
}

impl From<AllocError> for PowerFault {
    ghost from_gives = { λ _ fault. fault ≡ Memory };

    fn from(_error: AllocError) -> PowerFault {
        PowerFault::Memory
    }
}

impl From<LaurentFault> for PowerFault {
    ghost from_gives = { λ error fault. fault ≡ fault_of error };

    fn from(error: LaurentFault) -> PowerFault {
        match error {
            LaurentFault::TooLarge => PowerFault::TooLarge,
            LaurentFault::Memory => PowerFault::Memory,
        }
    }
}
