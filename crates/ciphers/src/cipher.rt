ghost use Rattle.std.specs.Prelude.{◌≡◌, ℕ, ◌^◌, ◌<◌, List, length, replicate, ◌≢◌};
ghost use Rattle.refusals.specs.Answers.{answered};
ghost use Rattle.ciphers.specs.Keys.{key_told, key_answer};

use crate::fault::KeyFault;

// A function from blocks to blocks, told on the blocks' numbers, that gives different blocks different images. This is
// all that the method asks of a cipher once it has its key; whoever adds one shows the two laws.
pub trait Permutation {
    // the image of a block
    ghost image: { Self → ℕ → ℕ };

    // The image of a block.
    fn image_of(&self, block: u128) -> u128
        ensures { result ≡ image self.now block };

    // the image of a block is a block
    ghost block: { (c : Self) (b : ℕ) → b < 2 ^ 128 → image c b < 2 ^ 128 };

    // different blocks have different images
    ghost apart: { (c : Self) (a b : ℕ) → a < 2 ^ 128 → b < 2 ^ 128 → image c a ≡ image c b → a ≡ b };
}

// A cipher on blocks of 128 bits: it holds a key, and under it means one permutation of blocks. Whoever adds a cipher
// shows that making it of a key gives the function that its standard defines.
pub trait BlockCipher: Permutation + Sized {
    // how many bytes a key has
    ghost KEY_BYTES: { ℕ };

    const KEY_BYTES: usize;

    // the function that the standard defines for a key's bytes
    ghost standard: { List ℕ → ℕ → ℕ };

    // The constant above, for code that is written for any cipher.
    fn key_len() -> usize
        ensures { result ≡ KEY_BYTES }
    {
        Self::KEY_BYTES
    }

    // A cipher under the key of zeros, to be lent to `set_key`.
    fn with_zero_key() -> Self
        ensures { Self.image result ≡ standard (replicate KEY_BYTES 0) };

    // Makes this the cipher of a key. A key of another length than the constant's is refused as 7, and then the cipher
    // stays as it was.
    fn set_key(&mut self, key: &[u8]) -> Result<(), KeyFault>
        ensures answer { answered key_told result ≡ key_answer KEY_BYTES key.now }
        ensures keyed { length key.now ≡ KEY_BYTES → Self.image self.new ≡ standard key.now }
        ensures kept { (length key.now ≢ KEY_BYTES) → self.new ≡ self.old };
}
