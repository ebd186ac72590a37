ghost use Rattle.std.specs.Prelude.{◌≡◌};
ghost use Rattle.sheetopener.specs.Opens.{open_told};
ghost use Rattle.sheetopener.specs.declared.fault.OpenFault.TheVariants.{InSheet, InSeal};

use checks::fault::CheckFault;
use refusals::Refusal;
use sheetlines::fault::SheetFault;

// The buffers that are filled, by their numbers in a refusal.
#[derive(Clone, Copy, Debug, PartialEq, Eq)]
pub enum Buffer {
    Header = 1,
    Message = 2,
}

// Why lines were not opened.
#[derive(Clone, Copy, Debug, PartialEq, Eq)]
pub enum OpenFault {
    // the text is not the lines of a sheet
    InSheet(SheetFault),
    // what a buffer is for does not fit it
    BufferTooSmall(Buffer),
    // check does not accept the sheet
    InSeal(CheckFault),
}

// these by hand, since a derived `From` has no contract, and clauses name the fault
impl From<SheetFault> for OpenFault {
    ghost from_gives = { λ e r. r ≡ InSheet e };

    fn from(e: SheetFault) -> OpenFault {
        OpenFault::InSheet(e)
    }
}

impl From<CheckFault> for OpenFault {
    ghost from_gives = { λ e r. r ≡ InSeal e };

    fn from(e: CheckFault) -> OpenFault {
        OpenFault::InSeal(e)
    }
}

impl Refusal for OpenFault {
    ghost told = { open_told };

    fn number(&self) -> u8 {
        match self {
            // a variant that holds a value has no number of its own, so the arms say them
            OpenFault::InSheet(fault) => fault.number(),
            OpenFault::BufferTooSmall(_) => 8,
            OpenFault::InSeal(fault) => fault.number(),
        }
    }
}
