ghost use Rattle.std.specs.Prelude.{◌≡◌};
ghost use Rattle.pt_unique.specs.declared.fault.KeyFault.TheVariants.{NoMemory};

use std::alloc::AllocError;
use thiserror::Error;

/// Why a row isn't entered.
#[derive(Clone, Copy, Debug, Error)]
pub enum KeyFault {
    /// A row agrees with it on a unique key: the least serial of such rows.
    #[error("the row of serial {serial} has the same key")]
    Taken { serial: u64 },
    /// Memory was wanting.
    #[error("out of memory")]
    NoMemory,
}

impl From<AllocError> for KeyFault {
    ghost from_gives = { λ _ fault. fault ≡ NoMemory };

    fn from(_: AllocError) -> Self {
        KeyFault::NoMemory
    }
}
