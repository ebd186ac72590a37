ghost use Rattle.std.specs.Prelude.{◌≡◌};
ghost use Rattle.refusals.specs.Answers.{answered};
ghost use Rattle.stores.specs.Store.{Store, Lawful, raise_told, raise_answer, raised, restarted};
ghost use Rattle.stores.specs.Readings.{reading_store};

use crate::fault::RaiseFault;
use crate::reading::Reading;
use crate::supply::Supply;

// What a cell holds that was never written.
pub const UNWRITTEN: u8 = 255;

// A mark that only rises, and that is still there after the power was gone. Whoever adds a store says what each value of
// it means, and shows that its mark keeps within its capacity.
pub trait MarkStore {
    // the five things that a store means
    ghost meaning: { Self → Store };

    // The five things, as numbers. It changes nothing, and works also while the store is off.
    fn reading(&self) -> Reading
        ensures { reading_store result ≡ meaning self.now };

    // Gives the mark and makes it one more, for one unit of power. A store that is off refuses with `PowerFailed`, and one
    // whose mark is at its capacity with `Full`; both stay as they were. With no power left the store goes off and refuses
    // with `PowerFailed`: the mark is then one more, or what it was where the leftover byte is ff.
    fn raise(&mut self) -> Result<u64, RaiseFault>
        ensures answer { answered raise_told result ≡ raise_answer (meaning self.old) }
        ensures after { meaning self.new ≡ raised (meaning self.old) };

    // Puts the store on with this supply. It refuses nothing, and leaves the mark and the capacity as they were.
    fn restart(&mut self, supply: Supply)
        ensures { meaning self.new ≡ restarted (meaning self.old) supply.power supply.leftover };

    // the mark is at most the capacity, and the capacity at most 2^53
    ghost lawful: { (s : Self) → Lawful (meaning s) };
}
