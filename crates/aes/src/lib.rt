// AES-128, as FIPS 197 defines it.
#![tactic(auto)]

ghost use Rattle.aes.specs.Cipher.{aes_128};
ghost use Rattle.aes.specs.Keyed.{keys_image, held};
ghost use Rattle.aes.specs.Images.{image-block, image-apart};

use ciphers::cipher::{BlockCipher, Permutation};
use ciphers::fault::KeyFault;
use keys::expand;
use rounds::encipher;
use state::{from_block, to_block};

mod keys;
mod rounds;
mod state;

// Four columns of four bytes: the state, or what a round adds to it.
type Columns = [[u8; 4]; 4];

// What a round adds to the state.
#[derive(Clone, Copy)]
struct RoundKey {
    columns: Columns,
}

// AES under a key of sixteen bytes: the key expanded, so that an image costs no expansion.
#[derive(Clone, Copy)]
pub struct Aes128 {
    keys: [RoundKey; 11],
}

impl Permutation for Aes128 {
    ghost image = { λ c. keys_image c.keys };

    fn image_of(&self, block: u128) -> u128 {
        let state = from_block(blocks::to_bytes(block));
        blocks::from_bytes(to_block(encipher(&self.keys, state)))
    }

    ghost block = { λ c b h. image-block (held c.keys) b };

    ghost apart = { λ c a b ha hb e. image-apart (held c.keys) a b ha hb e };
}

impl BlockCipher for Aes128 {
    ghost KEY_BYTES = { 16 };

    const KEY_BYTES: usize = 16;

    ghost standard = { aes_128 };

    fn with_zero_key() -> Aes128 {
        Aes128 {
            keys: expand([0; 16]),
        }
    }

    fn set_key(&mut self, key: &[u8]) -> Result<(), KeyFault> {
        // against the constant that each kind of cipher states
        if key.len() != Self::KEY_BYTES {
            return Err(KeyFault::WrongLength);
        }
        let mut bytes = [0; 16];
        bytes.copy_from_slice(key);
        self.keys = expand(bytes);
        Ok(())
    }
}
