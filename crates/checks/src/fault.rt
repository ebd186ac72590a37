ghost use Rattle.std.specs.Prelude.{◌≡◌};
ghost use Rattle.checks.specs.Checks.{check_told, read_told};
ghost use Rattle.checks.specs.declared.fault.CheckFault.TheVariants.{Limit};

use method::limits::LimitFault;
use refusals::Refusal;

// Why a sheet was not accepted.
#[derive(Clone, Copy, Debug, PartialEq, Eq)]
pub enum CheckFault {
    // a limit that the sheet does not keep
    Limit(LimitFault),
    // the tag is not the sheet's
    TagDiffers,
}

// Why a checked sheet was not read.
#[derive(Clone, Copy, Debug, PartialEq, Eq)]
pub enum ReadFault {
    // the read would pass the end
    PastEnd = 6,
}

// by hand, since a derived `From` has no contract, and clauses name the fault
impl From<LimitFault> for CheckFault {
    ghost from_gives = { λ e r. r ≡ Limit e };

    fn from(e: LimitFault) -> CheckFault {
        CheckFault::Limit(e)
    }
}

impl Refusal for CheckFault {
    ghost told = { check_told };

    fn number(&self) -> u8 {
        match self {
            // a variant that holds a value has no number of its own, so the arms say them
            CheckFault::Limit(fault) => fault.number(),
            CheckFault::TagDiffers => 15,
        }
    }
}

impl Refusal for ReadFault {
    ghost told = { read_told };

    fn number(&self) -> u8 {
        *self as u8
    }
}
