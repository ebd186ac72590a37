ghost use Rattle.std.specs.Prelude.{◌≡◌, true, false, Some};
ghost use Rattle.refusals.specs.Answers.{answered};
ghost use Rattle.stores.specs.Readings.{reading_store, state_text, reading_text};
ghost use Rattle.stores.specs.Store.{raise_told, raise_case, full, power_failed};

use crate::fault::RaiseFault;
use std::fmt;

// What a mark store is at one moment: the five things that it means, as plain values to be printed or compared.
// The five stand side by side, as a store has them; so power and leftover do not come as a `Supply` here.
#[derive(Clone, Copy, Debug, PartialEq, Eq)]
pub struct Reading {
    pub mark: u64,
    pub capacity: u64,
    pub power: u32,
    pub leftover: u8,
    pub on: bool,
}

impl Reading {
    // Whether a raise of a store that reads so completes: the power fails in one that does not. A store that is off or full
    // refuses it.
    // A plain yes or no; the refusals are the error.
    pub(crate) fn completes(self) -> Result<bool, RaiseFault>
        ensures { answered raise_told result
            ≡ raise_case (reading_store self) (Err power_failed) (Err full) (Ok true) (Ok false) }
    {
        if !self.on {
            return Err(RaiseFault::PowerFailed);
        }
        if self.mark == self.capacity {
            return Err(RaiseFault::Full);
        }
        Ok(self.power > 0)
    }
}

fn state(on: bool) -> &'static str
    ensures { result.now ≡ state_text on }
{
    if on { "on" } else { "off" }
}

// As `on, mark 3 of 65536, power 7, leftover 0f`.
impl fmt::Display for Reading {
    ghost output = { λ r. Some (reading_text r) };

    fn fmt<W: fmt::Write>(&self, f: &mut fmt::Formatter<W>) -> fmt::Result {
        let Reading {
            mark,
            capacity,
            power,
            leftover,
            on,
        } = *self;
        let state = state(on);
        write!(
            f,
            "{state}, mark {mark} of {capacity}, power {power}, leftover {leftover:02x}"
        )
    }
}
