ghost use Rattle.std.specs.Prelude.{◌≡◌, true};
ghost use Rattle.refusals.specs.Answers.{answered};
ghost use Rattle.stores.specs.Store.{store, raise_told, raise_answer, raised, restarted};
ghost use Rattle.stores.specs.Strips.{counted, strip_mark, strip_capacity, strip_cells, strip_store, strip-lawful, raised_cells};

use crate::fault::RaiseFault;
use crate::reading::Reading;
use crate::store::{MarkStore, UNWRITTEN};
use crate::supply::Supply;

// A strip has no more cells that count than this.
const COUNTED_CELLS: usize = 65536;

// A mark store in bytes that are lent to it: a cell a raise, written from the first cell on. The mark is read off the
// cells, so they carry it over a power failure.
#[derive(Drop)]
pub struct Strip<'a> {
    cells: &'a mut [u8],
    supply: Supply,
    // apart from the supply: a store that is off still tells what it had
    on: bool,
}

impl<'a> Strip<'a> {
    // A strip of these cells that is on. The cells stay as they are, and the mark is what they say. Whoever lent them finds
    // in them at the end what the strip last held: the strip keeps the reference that it was given.
    pub fn new(cells: &'a mut [u8], supply: Supply) -> Strip<'a>
        ensures meaning { strip_store result
            ≡ store (strip_mark cells.old) (strip_capacity cells.old) supply.power supply.leftover true }
        ensures cells { strip_cells result ≡ cells.old }
        ensures lent { result.cells.ghost_name ≡ cells.entry.ghost_name }
    {
        Strip {
            cells,
            supply,
            on: true,
        }
    }

    // All the cells, counted or not, to be looked at.
    pub fn cells(&self) -> &[u8]
        ensures { result.now ≡ strip_cells self.now }
    {
        &*self.cells
    }

    fn counted(&self) -> &[u8]
        ensures { result.now ≡ counted (strip_cells self.now) }
    {
        &self.cells[..COUNTED_CELLS.min(self.cells.len())]
    }

    fn capacity(&self) -> usize
        ensures { result ≡ strip_capacity (strip_cells self.now) }
    {
        self.counted().len()
    }

    // Looks from the last cell down: cells of ff may stand below a used one.
    fn mark(&self) -> usize
        ensures { result ≡ strip_mark (strip_cells self.now) }
    {
        match self.counted().iter().rposition(|cell| *cell != UNWRITTEN) {
            Some(last) => last + 1,
            None => 0,
        }
    }
}

impl MarkStore for Strip<'_> {
    ghost meaning = { strip_store };

    ghost lawful = { strip-lawful };

    fn reading(&self) -> Reading {
        Reading {
            mark: self.mark() as u64,
            capacity: self.capacity() as u64,
            power: self.supply.power,
            leftover: self.supply.leftover,
            on: self.on,
        }
    }

    // It writes the cell at the mark and no other: 00 where it completes, the leftover byte where the power fails.
    // The register writes a number and the strip a cell; only the test before that is one.
    fn raise(&mut self) -> Result<u64, RaiseFault>
        ensures answer { answered raise_told result ≡ raise_answer (strip_store self.old) }
        ensures after { strip_store self.new ≡ raised (strip_store self.old) }
        ensures cells { strip_cells self.new
            ≡ raised_cells (strip_cells self.old) self.old.on self.old.supply.power self.old.supply.leftover }
        ensures lent { self.new.cells.ghost_name ≡ self.old.cells.ghost_name }
    {
        // before the reading, which looks through the cells
        if !self.on {
            return Err(RaiseFault::PowerFailed);
        }
        let now = self.reading();
        let mark = now.mark as usize;
        if now.completes()? {
            self.cells[mark] = 0;
            self.supply.power -= 1;
            Ok(now.mark)
        } else {
            self.cells[mark] = now.leftover;
            self.on = false;
            Err(RaiseFault::PowerFailed)
        }
    }

    // It leaves every cell as it was.
    fn restart(&mut self, supply: Supply)
        ensures after { strip_store self.new ≡ restarted (strip_store self.old) supply.power supply.leftover }
        ensures cells { strip_cells self.new ≡ strip_cells self.old }
        ensures lent { self.new.cells.ghost_name ≡ self.old.cells.ghost_name }
    {
        self.supply = supply;
        self.on = true;
    }
}
