ghost use Rattle.std.specs.Prelude.{◌≡◌};
ghost use Rattle.pt_rowfile.specs.declared.fault.RowFault.TheVariants.{NoMemory};

use std::alloc::AllocError;
use thiserror::Error;

/// Why a row file gives no rows.
#[derive(Clone, Copy, Debug, Error)]
pub enum RowFault {
    /// The record that begins at this byte isn't proper, and those before it are.
    #[error("no proper record at {place}")]
    Bad { place: u64 },
    /// Memory was wanting.
    #[error("no memory")]
    NoMemory,
}

impl From<AllocError> for RowFault {
    ghost from_gives = { λ _ fault. fault ≡ NoMemory };

    fn from(_: AllocError) -> Self {
        RowFault::NoMemory
    }
}
