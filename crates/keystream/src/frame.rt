// Counters, and the masks and keystream blocks that they are behind.
ghost use Rattle.std.specs.Prelude.{◌≡◌, ◌/◌, ◌^◌, ◌<◌};
ghost use Rattle.keystream.specs.Counters.{counter, block_counter, mask, block_under, block_at};
ghost use Rattle.keystream.specs.Laws.{Closed, PracticeFigures, Counted, last_counter};

use crate::Keystream;
use ciphers::cipher::Permutation;

// How many keystream blocks have one mask.
pub const FRAME_BLOCKS: u64 = 256;

// A frame's counters: one for its mask, one for each block.
const FRAME_COUNTERS: u64 = 257;

// A nonce stands above 64 bits of counter.
const NONCE_STEP: u128 = 1 << 64;

fn counter_of(nonce: u64, j: u64) -> u128
    ensures { result ≡ counter nonce j }
{
    u128::from(nonce) * NONCE_STEP + u128::from(j)
}

// The counter behind a keystream block. Its frame's first counter is the mask's.
fn counter_behind(index: u64) -> u64
    requires { index < 2 ^ 63 }
    ensures { result ≡ block_counter index }
{
    FRAME_COUNTERS * (index / FRAME_BLOCKS) + index % FRAME_BLOCKS + 1
}

impl<C: Permutation> Keystream<'_, C> {
    // The mask of a frame that a message can reach.
    // Public calls ask for nothing, so they take 32 bits, of which every number can be reached; these take all that a message can.
    pub(crate) fn reached_mask(&self, frame: u64) -> u128
        requires { frame < 2 ^ 55 }
        ensures { result ≡ mask (C.image self.now.cipher.now) self.now.nonce frame }
    {
        self.cipher
            .image_of(counter_of(self.nonce, FRAME_COUNTERS * frame))
    }

    // A keystream block that a message can reach, under a mask.
    pub(crate) fn reached_block(&self, index: u64, veil: u128) -> u128
        requires { index < 2 ^ 63 }
        ensures { result ≡ block_under (C.image self.now.cipher.now) self.now.nonce veil index }
    {
        self.cipher
            .image_of(counter_of(self.nonce, counter_behind(index)))
            ^ veil
    }

    // The mask of a frame.
    pub fn mask_of(&self, frame: u32) -> u128
        ensures { result ≡ mask (C.image self.now.cipher.now) self.now.nonce frame }
    {
        self.reached_mask(u64::from(frame))
    }

    // The image of a block's counter, under a mask that is at hand. Under its frame's mask it is the keystream block.
    pub fn block_under(&self, index: u32, veil: u128) -> u128
        ensures { result ≡ block_under (C.image self.now.cipher.now) self.now.nonce veil index }
    {
        self.reached_block(u64::from(index), veil)
    }

    // A keystream block, by its number. The published keystream is these blocks in a row; three of them are worked out.
    pub fn block_of(&self, index: u32) -> u128
        ensures value { result ≡ block_at (C.image self.now.cipher.now) self.now.nonce index }
        ensures closed { Closed }
        ensures figures { PracticeFigures }
    {
        let index = u64::from(index);
        let veil = self.reached_mask(index / FRAME_BLOCKS);
        self.reached_block(index, veil)
    }
}

// The last counter that a message of so many blocks uses. It uses each from 0 to this one exactly once.
pub fn last_counter(blocks: u32) -> u64
    ensures value { result ≡ last_counter blocks }
    ensures counted { Counted blocks }
{
    let blocks = u64::from(blocks);
    blocks + (blocks + 1).div_ceil(FRAME_BLOCKS)
}
