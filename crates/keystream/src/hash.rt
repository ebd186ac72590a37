// The blocks whose images are the hash keys.
ghost use Rattle.std.specs.Prelude.{◌≡◌};
ghost use Rattle.keystream.specs.Counters.{const0, const1};

use ciphers::cipher::Permutation;

// 127 one bits and a zero. As a counter it would need a nonce of 64 bits, so no keystream has it.
const CONST0: u128 = u128::MAX - 1;

// 128 one bits.
const CONST1: u128 = u128::MAX;

// The images of the two constants: the key that ciphertexts are hashed under, and the key for headers.
pub fn hash_keys<C: Permutation>(cipher: &C) -> (u128, u128)
    ensures { result ≡ (C.image cipher.now const0, C.image cipher.now const1) }
{
    (cipher.image_of(CONST0), cipher.image_of(CONST1))
}
