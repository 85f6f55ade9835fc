ghost use Rattle.std.specs.Prelude.{◌≡◌};
ghost use Rattle.pt_store.specs.declared.stop.Stop.TheVariants.{NoMemory};
ghost use Rattle.pt_books.specs.declared.halt.Halt.TheVariants.{Stopped};
ghost use Rattle.pt_books.specs.Halts.{of_fault};

use pt_ast::Refusal;
use pt_checks::CellsFault;
use pt_store::Stop;
use std::alloc::AllocError;

/// Why a statement isn't carried out.
#[derive(Clone, Copy)]
pub enum Halt {
    /// It is refused.
    Refused(Refusal),
    /// A call stopped.
    Stopped(Stop),
}

impl From<CellsFault> for Halt {
    ghost from_gives = { λ fault halt. halt ≡ of_fault fault };

    fn from(fault: CellsFault) -> Self {
        match fault {
            CellsFault::Refused(refusal) => Halt::Refused(refusal),
            CellsFault::NoMemory => Halt::Stopped(Stop::NoMemory),
        }
    }
}

impl From<Stop> for Halt {
    ghost from_gives = { λ stop halt. halt ≡ Stopped stop };

    fn from(stop: Stop) -> Self {
        Halt::Stopped(stop)
    }
}

impl From<AllocError> for Halt {
    ghost from_gives = { λ _ halt. halt ≡ Stopped NoMemory };

    fn from(_: AllocError) -> Self {
        Halt::Stopped(Stop::NoMemory)
    }
}
