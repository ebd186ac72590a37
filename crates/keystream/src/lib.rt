// The keystream: counters, masks and blocks of a nonce, the xor of bytes with it, and the images behind the hash keys.
#![tactic(auto)]

ghost use Rattle.std.specs.Prelude.{◌≡◌};

use ciphers::cipher::Permutation;

pub mod frame;
pub mod hash;
pub mod stream;

// The keystream of a nonce under a cipher. It holds no more than the two; each call works out what it needs.
#[derive_where(Clone, Copy)]
pub struct Keystream<'c, C> {
    cipher: &'c C,
    nonce: u64,
}

impl<'c, C: Permutation> Keystream<'c, C> {
    pub fn new(cipher: &'c C, nonce: u64) -> Keystream<'c, C>
        ensures cipher { result.cipher.now ≡ cipher.now }
        ensures nonce { result.nonce ≡ nonce }
    {
        Keystream { cipher, nonce }
    }
}
