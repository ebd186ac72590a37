// What a running hash does: it starts, takes bytes and ends in a block.
ghost use Rattle.std.specs.Prelude.{◌≡◌, ℕ, List};
ghost use Rattle.blocks.specs.Blocks.{AllBytes};
ghost use Rattle.polyhash.specs.Hash.{hash};
ghost use Rattle.polyhash.specs.Running.{started, rekeyed, stepped, absorbed, finished, Laws};

use crate::running::Running;
use polynomials::multiply;

impl Running {
    // No byte so far.
    pub fn new(key: u128) -> Running
        ensures { result ≡ started key }
    {
        Running {
            key,
            sum: 0,
            part: 0,
            fill: 0,
        }
    }

    // The block that the hash is under.
    pub fn key(&self) -> u128
        ensures { result ≡ self.now.key }
    {
        self.key
    }

    // The same running hash, under another key from here on.
    pub fn under(self, key: u128) -> Running
        ensures { result ≡ rekeyed key self }
    {
        Running { key, ..self }
    }

    // Takes one byte; the sixteenth of a block ends it.
    fn step(&mut self, byte: u8)
        ensures { self.new ≡ stepped self.old byte }
    {
        let part = (self.part << 8) | u128::from(byte);
        if self.fill < 15 {
            self.part = part;
            self.fill += 1;
        } else {
            self.sum = multiply(self.sum ^ part, self.key);
            self.part = 0;
            self.fill = 0;
        }
    }

    // Takes the next bytes of the string. The second clause is the theorem on running hashes: the string may be cut into
    // pieces anywhere, and what is finished is its hash.
    pub fn absorb(&mut self, bytes: &[u8])
        ensures value { self.new ≡ absorbed self.old bytes.now }
        ensures laws { Laws }
    {
        for b in bytes {
            self.step(*b);
        }
    }

    // Takes the padding's bytes and gives the hash of the whole string, whatever pieces it came in.
    pub fn finish(mut self) -> u128
        ensures value { result ≡ finished self }
        ensures whole { (m : List ℕ) → AllBytes m → self ≡ absorbed (started self.key) m → result ≡ hash self.key m }
    {
        let fill = self.fill;
        self.step(0x80);
        for _ in fill..15 {
            self.step(0);
        }
        self.sum
    }
}

// The hash of a string that is at hand as a whole.
pub fn hash_of(key: u128, bytes: &[u8]) -> u128
    ensures { result ≡ hash key bytes.now }
{
    let mut running = Running::new(key);
    running.absorb(bytes);
    running.finish()
}
