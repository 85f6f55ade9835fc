ghost use Rattle.std.specs.Prelude.{◌≡◌};
ghost use Rattle.pt_checks.specs.Faults.{of_fault};
ghost use Rattle.pt_checks.specs.declared.faults.CellsFault.TheVariants.{NoMemory};

use pt_ast::{Arg, Refusal};
use pt_expr::CheckFault;
use std::alloc::AllocError;

/// Why a row of VALUES gives no cells.
#[derive(Clone, Copy)]
pub enum CellsFault {
    /// The statement is refused.
    Refused(Refusal),
    /// Memory was wanting.
    NoMemory,
}

impl From<AllocError> for CellsFault {
    ghost from_gives = { λ _ fault. fault ≡ NoMemory };

    fn from(_: AllocError) -> Self {
        CellsFault::NoMemory
    }
}

/// A fault as a refusal, told of a row or a table.
pub(crate) fn of_fault(arg: Arg, fault: CheckFault) -> Refusal
    ensures { result ≡ of_fault arg fault }
{
    match fault {
        CheckFault::NoColumn(name) => Refusal::NoSuchColumn(name),
        CheckFault::Mismatch => Refusal::TypeMismatch(arg),
        CheckFault::TooWide => Refusal::TooWide(arg),
        CheckFault::BadDate => Refusal::OutOfRange(arg),
    }
}
