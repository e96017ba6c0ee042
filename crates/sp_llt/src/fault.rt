// Why a listed row is not taken.
ghost use Rattle.std.specs.Prelude.{◌≡◌};
ghost use Rattle.sp_llt.specs.declared.fault.AdoptFault.TheVariants.{Memory};

use std::alloc::AllocError;

/// Why a listed row is not taken.
#[derive(Clone, Copy, Debug, PartialEq, Eq)]
pub enum AdoptFault {
    /// A size of what is added up passes the limit.
    TooLarge,
    /// It is not the row, or these are not its shares.
    Wrong,
    /// Memory ran out.
    Memory,
}

impl From<AllocError> for AdoptFault {
    ghost from_gives = { λ _ fault. fault ≡ Memory };

    fn from(_error: AllocError) -> AdoptFault {
        AdoptFault::Memory
    }
}
