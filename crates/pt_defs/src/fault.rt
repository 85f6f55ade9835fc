//! Why bytes are no definition.
ghost use Rattle.std.specs.Prelude.{◌≡◌};
ghost use Rattle.pt_defs.specs.declared.fault.Stop.TheVariants.{NoMemory};

use std::alloc::{AllocError, AllocFailed};

/// Why bytes give no definition.
#[derive(Clone, Copy, Debug)]
pub enum DefRead {
    /// They spell none: the place of the first field that can't be read, in bytes from 0.
    Bad { place: u64 },
    /// Memory runs out.
    NoMemory,
}

/// Why a reader stops.
#[derive(Clone, Copy, Debug)]
pub(crate) enum Stop {
    /// A field can't be read; so many bytes there are from it to the end.
    Left(usize),
    NoMemory,
}

impl From<AllocError> for Stop {
    ghost from_gives = { λ _ stop. stop ≡ NoMemory };

    fn from(_error: AllocError) -> Stop {
        Stop::NoMemory
    }
}

impl<T: Drop> From<AllocFailed<T>> for Stop {
    ghost from_gives = { λ _ stop. stop ≡ NoMemory };

    fn from(_error: AllocFailed<T>) -> Stop {
        Stop::NoMemory
    }
}
