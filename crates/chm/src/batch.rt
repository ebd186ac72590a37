ghost use Rattle.std.specs.Prelude.{◌≡◌, ◌^◌, ◌<◌, Some, None, if◌then◌else◌};
ghost use Rattle.chm.specs.Sealers.{some_left, next_nonce, one_given};

// A batch has so many nonces.
pub const BATCH_NONCES: u64 = 1024;

// The nonces 1,024 times the number and the next 1,023, of which so many were given out.
#[derive(Clone, Copy, Debug, PartialEq, Eq)]
pub struct Batch {
    pub number: u64,
    pub given: u16,
}

// a batch is any number: its bounds stand at the sealer, which alone makes one
impl Batch {
    // The next nonce, or None where all were given out.
    pub(crate) fn next(&mut self) -> Option<u64>
        requires { self.old.number < 2 ^ 53 }
        ensures nonce { result ≡ (if some_left (Some self.old) then Some (next_nonce (Some self.old)) else None) }
        ensures after { Some self.new ≡ (if some_left (Some self.old) then one_given (Some self.old) else Some self.old) }
    {
        let given = u64::from(self.given);
        if given >= BATCH_NONCES {
            return None;
        }
        self.given += 1;
        Some(BATCH_NONCES * self.number + given)
    }
}
