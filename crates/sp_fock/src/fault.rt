// Why an operation on vectors was refused.
ghost use Rattle.std.specs.Prelude.{◌≡◌};
ghost use Rattle.sp_fock.specs.Fault.{fault_of};
ghost use Rattle.sp_fock.specs.declared.fault.FockFault.TheVariants.{Memory};

use sp_laurent::LaurentFault;
use std::alloc::AllocError;
use thiserror::Error;

/// Why an operation on vectors was refused.
#[derive(Clone, Copy, Debug, PartialEq, Eq, Error)]
pub enum FockFault {
    /// A size passes the limit.
    #[error("vector too large")]
    TooLarge,
    /// Memory ran out.
    #[error("out of memory")]
    Memory,
}

impl From<AllocError> for FockFault {
    ghost from_gives = { λ _ fault. fault ≡ Memory };

    fn from(_error: AllocError) -> FockFault {
        FockFault::Memory
    }
}

impl From<LaurentFault> for FockFault {
    ghost from_gives = { λ error fault. fault ≡ fault_of error };

    fn from(error: LaurentFault) -> FockFault {
        match error {
            LaurentFault::TooLarge => FockFault::TooLarge,
            LaurentFault::Memory => FockFault::Memory,
        }
    }
}
