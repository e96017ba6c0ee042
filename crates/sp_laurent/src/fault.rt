//! Why an operation on polynomials was refused.
ghost use Rattle.std.specs.Prelude.{◌≡◌};
ghost use Rattle.sp_laurent.specs.declared.fault.LaurentFault.TheVariants.{Memory};

use std::alloc::AllocError;
use thiserror::Error;

/// Why an operation on polynomials was refused.
#[derive(Clone, Copy, Debug, PartialEq, Eq, Error)]
pub enum LaurentFault {
    /// The size passes the limit.
    #[error("polynomial too large")]
    TooLarge,
    #[error("out of memory")]
    Memory,
}

impl From<AllocError> for LaurentFault {
    ghost from_gives = { λ _ fault. fault ≡ Memory };

    fn from(_error: AllocError) -> LaurentFault {
        LaurentFault::Memory
    }
}

/// Why a text was not read as a polynomial.
#[derive(Clone, Copy, Debug, PartialEq, Eq, Error)]
pub enum ParseFault {
    /// It isn't the canonical text of a polynomial within the limits.
    #[error("not a Laurent polynomial")]
    NotLaurent,
    #[error("out of memory")]
    Memory,
}

impl From<AllocError> for ParseFault {
    ghost use Rattle.sp_laurent.specs.declared.fault.ParseFault.TheVariants.{Memory as ParseMemory};

    ghost from_gives = { λ _ fault. fault ≡ ParseMemory };

    fn from(_error: AllocError) -> ParseFault {
        ParseFault::Memory
    }
}
