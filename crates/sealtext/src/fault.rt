ghost use Rattle.std.specs.Prelude.{◌≡◌};
ghost use Rattle.sealtext.specs.Seals.{fault_told};
ghost use Rattle.sealtext.specs.declared.fault.InputFault.TheVariants.{Key, Begin, Head};

use chm::fault::{BeginFault, HeadFault};
use ciphers::fault::KeyFault;
use refusals::Refusal;

// Why an input was not sealed.
#[derive(Clone, Copy, Debug, PartialEq, Eq)]
pub(crate) enum InputFault {
    Key(KeyFault),
    Begin(BeginFault),
    Head(HeadFault),
}

// these by hand, since a derived `From` has no contract, and clauses name the fault
impl From<KeyFault> for InputFault {
    ghost from_gives = { λ e r. r ≡ Key e };

    fn from(e: KeyFault) -> InputFault {
        InputFault::Key(e)
    }
}

impl From<BeginFault> for InputFault {
    ghost from_gives = { λ e r. r ≡ Begin e };

    fn from(e: BeginFault) -> InputFault {
        InputFault::Begin(e)
    }
}

impl From<HeadFault> for InputFault {
    ghost from_gives = { λ e r. r ≡ Head e };

    fn from(e: HeadFault) -> InputFault {
        InputFault::Head(e)
    }
}

impl Refusal for InputFault {
    ghost told = { fault_told };

    fn number(&self) -> u8 {
        match self {
            InputFault::Key(fault) => fault.number(),
            InputFault::Begin(fault) => fault.number(),
            InputFault::Head(fault) => fault.number(),
        }
    }
}
