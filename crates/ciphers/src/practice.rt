ghost use Rattle.std.specs.Prelude.{◌≡◌};
ghost use Rattle.ciphers.specs.Practices.{practice, xor_image};
ghost use Rattle.ciphers.specs.Practiced.{xor_image-block, xor_image-apart};

use crate::cipher::{BlockCipher, Permutation};
use crate::fault::KeyFault;

// The cipher for exercises: the image of a block is the block xor the key. It keeps nothing secret, and is lawful.
#[derive(Clone, Copy)]
pub struct Practice {
    key: u128,
}

impl Permutation for Practice {
    ghost image = { λ c. xor_image c.key };

    fn image_of(&self, block: u128) -> u128 {
        block ^ self.key
    }

    ghost block = { λ c b h. xor_image-block c.key b h };

    ghost apart = { λ c a b ha hb e. xor_image-apart c.key a b e };
}

impl BlockCipher for Practice {
    ghost KEY_BYTES = { 16 };

    const KEY_BYTES: usize = 16;

    ghost standard = { practice };

    fn with_zero_key() -> Practice {
        Practice { key: 0 }
    }

    fn set_key(&mut self, key: &[u8]) -> Result<(), KeyFault> {
        // against the constant that each kind of cipher states
        if key.len() != Self::KEY_BYTES {
            return Err(KeyFault::WrongLength);
        }
        let mut bytes = [0; 16];
        bytes.copy_from_slice(key);
        self.key = blocks::from_bytes(bytes);
        Ok(())
    }
}
