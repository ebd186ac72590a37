ghost use Rattle.std.specs.Prelude.{◌≡◌, ◌^◌, ◌<◌, min, true};
ghost use Rattle.stores.specs.Store.{store, cut_mark};
ghost use Rattle.stores.specs.Registers.{register_store, register_lawful};

use crate::fault::RaiseFault;
use crate::reading::Reading;
use crate::register::Register;
use crate::store::{MarkStore, UNWRITTEN};
use crate::supply::Supply;

pub const REGISTER_CAPACITY: u64 = 1 << 53;

// Follows what a cell would say: a byte of ff cannot be told from a cell that was never written.
fn cut_mark(mark: u64, leftover: u8) -> u64
    requires { mark < 2 ^ 53 }
    ensures { result ≡ cut_mark mark leftover }
{
    if leftover == UNWRITTEN {
        mark
    } else {
        mark + 1
    }
}

impl Register {
    // A register that is on, at this mark or at its capacity, whichever is less.
    pub fn new(mark: u64, supply: Supply) -> Register
        ensures { register_store result ≡ store (min mark (2 ^ 53)) (2 ^ 53) supply.power supply.leftover true }
    {
        Register {
            mark: mark.min(REGISTER_CAPACITY),
            supply,
            on: true,
        }
    }
}

impl MarkStore for Register {
    ghost meaning = { register_store };

    ghost lawful = { register_lawful };

    fn reading(&self) -> Reading {
        Reading {
            mark: self.mark,
            capacity: REGISTER_CAPACITY,
            power: self.supply.power,
            leftover: self.supply.leftover,
            on: self.on,
        }
    }

    fn raise(&mut self) -> Result<u64, RaiseFault> {
        let now = self.reading();
        if now.completes()? {
            self.mark += 1;
            self.supply.power -= 1;
            Ok(now.mark)
        } else {
            self.mark = cut_mark(now.mark, now.leftover);
            self.on = false;
            Err(RaiseFault::PowerFailed)
        }
    }

    fn restart(&mut self, supply: Supply) {
        self.supply = supply;
        self.on = true;
    }
}
