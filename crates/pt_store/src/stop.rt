ghost use Rattle.std.specs.Prelude.{◌≡◌};
ghost use Rattle.pt_store.specs.declared.stop.Stop.TheVariants.{NoMemory, Fault};

use pt_host::{HostFail, Name};
use std::alloc::{AllocError, AllocFailed};

/// Why a call stopped.
#[derive(Clone, Copy, Debug)]
pub enum Stop {
    /// Memory ran out.
    NoMemory,
    /// A call on the disk failed.
    Fault,
    /// The bytes of this file, from this place on, mean nothing. The place is a byte offset.
    Bad { name: Name, place: u64 },
}

impl From<HostFail> for Stop {
    ghost from_gives = { λ _ e. e ≡ Fault };

    fn from(_fail: HostFail) -> Stop {
        Stop::Fault
    }
}

impl From<AllocError> for Stop {
    ghost from_gives = { λ _ e. e ≡ NoMemory };

    fn from(_fail: AllocError) -> Stop {
        Stop::NoMemory
    }
}

impl<T: Drop> From<AllocFailed<T>> for Stop {
    ghost from_gives = { λ _ e. e ≡ NoMemory };

    fn from(_fail: AllocFailed<T>) -> Stop {
        Stop::NoMemory
    }
}
