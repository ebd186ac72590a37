ghost use Rattle.std.specs.Prelude.{◌≡◌};
ghost use Rattle.sheetwriter.specs.Writes.{write_told};
ghost use Rattle.sheetwriter.specs.declared.fault.WriteFault.TheVariants.{Limit};

use method::limits::LimitFault;
use refusals::Refusal;

// Why the lines of a sheet were not written.
#[derive(Clone, Copy, Debug, PartialEq, Eq)]
pub enum WriteFault {
    // a limit that the sheet does not keep
    Limit(LimitFault),
    // the lines do not fit the buffer
    BufferTooSmall,
}

// by hand, since a derived `From` has no contract, and clauses name the fault
impl From<LimitFault> for WriteFault {
    ghost from_gives = { λ e r. r ≡ Limit e };

    fn from(e: LimitFault) -> WriteFault {
        WriteFault::Limit(e)
    }
}

impl Refusal for WriteFault {
    ghost told = { write_told };

    fn number(&self) -> u8 {
        match self {
            // a variant that holds a value has no number of its own, so the arms say them
            WriteFault::Limit(fault) => fault.number(),
            WriteFault::BufferTooSmall => 8,
        }
    }
}
