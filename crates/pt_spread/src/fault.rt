ghost use Rattle.std.specs.Prelude.{◌≡◌};
ghost use Rattle.pt_spread.specs.declared.fault.SpreadFault.TheVariants.{NoMemory};

use std::alloc::AllocError;

/// Why rows don't stand in the spots of a definition.
#[derive(Clone, Copy)]
pub enum SpreadFault {
    /// No partition takes the row: its number among all of them by rising serial, from 1.
    Unplaced(u64),
    /// Memory was wanting.
    NoMemory,
}

impl From<AllocError> for SpreadFault {
    ghost from_gives = { λ _ fault. fault ≡ NoMemory };

    fn from(_: AllocError) -> Self {
        SpreadFault::NoMemory
    }
}
