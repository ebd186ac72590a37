ghost use Rattle.std.specs.Prelude.{◌≡◌, ◌==◌};
ghost use Rattle.refusals.specs.Answers.{answered};
ghost use Rattle.ciphers.specs.Keys.{key_told, made_answer, meant, image_answer};

use crate::cipher::{BlockCipher, Permutation};
use crate::fault::KeyFault;

// The cipher of a key; a key of the wrong length is refused as 7.
pub fn under_key<C: BlockCipher + Drop>(key: &[u8]) -> Result<C, KeyFault>
    ensures { answered key_told (meant C.Permutation.image result) ≡ made_answer C.KEY_BYTES C.standard key.now }
{
    let mut cipher = C::with_zero_key();
    cipher.set_key(key)?;
    Ok(cipher)
}

// The image of a block under the cipher of a key, in one call; a key of the wrong length is refused as 7.
pub fn image_under<C: BlockCipher + Drop>(key: &[u8], block: u128) -> Result<u128, KeyFault>
    ensures { answered key_told result ≡ image_answer C.KEY_BYTES C.standard key.now block }
{
    let cipher: C = under_key(key)?;
    Ok(cipher.image_of(block))
}

// Whether two blocks are equal, told from their images alone.
pub fn same_image<C: Permutation>(cipher: &C, a: u128, b: u128) -> bool
    ensures { result ≡ (a == b) }
{
    cipher.image_of(a) == cipher.image_of(b)
}
