// The block cipher Speck128/256: blocks of two 64-bit words, keys of four.
#![tactic(auto)]

ghost use Rattle.std.specs.Prelude.{◌≡◌, ◌+◌, ◌*◌, ◌≤◌, length, get_or};
ghost use Rattle.speck.specs.Keyed.{keys_image};
ghost use Rattle.speck.specs.Rounds.{round, rounds, speck, key_word};
ghost use Rattle.speck.specs.Apart.{image-block, image-apart};

use ciphers::cipher::{BlockCipher, Permutation};
use ciphers::fault::KeyFault;

const ROUNDS: usize = 34;

const WORD_BYTES: usize = 8;

// A cipher that holds its 34 round keys.
#[derive(Clone, Copy)]
pub struct Speck128_256 {
    keys: [u64; ROUNDS],
}

fn next_words(key: u64, x: u64, y: u64) -> (u64, u64)
    ensures { result ≡ round key (x, y) }
{
    let next = x.rotate_right(8).wrapping_add(y) ^ key;
    (next, y.rotate_left(3) ^ next)
}

fn all_rounds(keys: &[u64; ROUNDS], x: u64, y: u64) -> (u64, u64)
    ensures { result ≡ rounds 34 (λ i. get_or keys.now i 0) (x, y) }
{
    let mut v = (x, y);
    for k in keys {
        v = next_words(*k, v.0, v.1);
    }
    v
}

// Word `j` of a key.
fn word_of(key: &[u8], j: usize) -> u64
    requires { 8 * j + 8 ≤ length key.now }
    ensures { result ≡ key_word key.now j }
{
    let at = WORD_BYTES * j;
    let mut bytes = [0; WORD_BYTES];
    bytes.copy_from_slice(&key[at..at + WORD_BYTES]);
    u64::from_be_bytes(bytes)
}

// The round keys of a key of 32 bytes: with them a block has the image that the standard gives it.
fn expand(key: &[u8]) -> [u64; ROUNDS]
    requires { length key.now ≡ 32 }
    ensures { keys_image result ≡ speck key.now }
{
    let mut keys = [0; ROUNDS];
    let mut k = word_of(key, 3);
    let mut l = word_of(key, 2);
    let mut l1 = word_of(key, 1);
    let mut l2 = word_of(key, 0);
    for (i, key) in keys.iter_mut().enumerate() {
        *key = k;
        let (next_l, next_k) = next_words(i as u64, l, k);
        l = l1;
        l1 = l2;
        l2 = next_l;
        k = next_k;
    }
    keys
}

impl Permutation for Speck128_256 {
    ghost image = { λ c. keys_image c.keys };

    fn image_of(&self, block: u128) -> u128 {
        let x = (block >> 64) as u64;
        let y = (block & 0xffff_ffff_ffff_ffff) as u64;
        let (a, b) = all_rounds(&self.keys, x, y);
        (u128::from(a) << 64) | u128::from(b)
    }

    ghost block = { λ c b h. image-block (λ i. get_or c.keys i 0) b h };

    ghost apart = { λ c a b ha hb e. image-apart (λ i. get_or c.keys i 0) a b ha hb e };
}

impl BlockCipher for Speck128_256 {
    ghost KEY_BYTES = { 32 };

    const KEY_BYTES: usize = 32;

    ghost standard = { speck };

    fn with_zero_key() -> Speck128_256 {
        Speck128_256 {
            keys: expand(&[0; 32]),
        }
    }

    fn set_key(&mut self, key: &[u8]) -> Result<(), KeyFault> {
        // against the constant that each kind of cipher states
        if key.len() != Self::KEY_BYTES {
            return Err(KeyFault::WrongLength);
        }
        self.keys = expand(key);
        Ok(())
    }
}
