ghost use Rattle.stores.specs.Store.{raise_told};

use refusals::Refusal;

// Why a raise gave no mark.
#[derive(Clone, Copy, Debug, PartialEq, Eq)]
pub enum RaiseFault {
    // the mark has reached the capacity
    Full = 22,
    // the store is off, or went off in this raise
    PowerFailed = 23,
}

impl Refusal for RaiseFault {
    ghost told = { raise_told };

    fn number(&self) -> u8 {
        *self as u8
    }
}
