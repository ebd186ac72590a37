ghost use Rattle.std.specs.Prelude.{◌≡◌, ◌+◌, ◌^◌, ◌<◌, ◌≤◌, length};
ghost use Rattle.keystream.specs.Counters.{xored};
ghost use Rattle.chm.specs.Words.{turned, steps, sent};

use crate::words::KeyWords;
use blocks::BLOCK_BYTES;
use ciphers::cipher::Permutation;
use keystream::Keystream;
use keystream::frame::FRAME_BLOCKS;
use keystream::stream::xor_part;

// Writes a part of at most one block, xored with the bytes of a keystream block from `skip` on. It is xored in a room of its own, and not
// in the output: that may be memory which others read, or which outlasts a power cut, so it is given ciphertext alone.
fn put_part(word: u128, skip: usize, part: &[u8], out: &mut [u8])
    requires small { length part.now ≤ 16 }
    requires lengths { length out.old ≡ length part.now }
    ensures { out.new ≡ xored word skip part.now }
{
    let mut room = [0; BLOCK_BYTES];
    let bytes = &mut room[..part.len()];
    bytes.copy_from_slice(part);
    xor_part(word, skip, bytes);
    out.copy_from_slice(bytes);
}

impl KeyWords {
    // The words for the next byte.
    #[tactic(auto, unfolding(crate::specs::Words::turned))]
    fn turn<C: Permutation>(self, stream: &Keystream<'_, C>) -> KeyWords
        requires { self.len < 2 ^ 32 }
        ensures turns { result ≡ turned (C.image stream.now.cipher.now) stream.now.nonce self }
        ensures stays { result.len ≡ self.len }
    {
        if self.len % 16 != 0 {
            return self;
        }
        let index = 1 + self.len as u64 / 16;
        let veil = if self.len == 0 || index % FRAME_BLOCKS == 0 {
            stream.mask_of((index / FRAME_BLOCKS) as u32)
        } else {
            self.veil
        };
        KeyWords {
            len: self.len,
            veil,
            word: stream.block_under(index as u32, veil),
        }
    }

    // Writes a piece xored with the keystream that follows the words, and returns the words after it.
    pub(crate) fn send<C: Permutation>(
        self,
        stream: &Keystream<'_, C>,
        piece: &[u8],
        out: &mut [u8],
    ) -> KeyWords
        requires lengths { length out.old ≡ length piece.now }
        requires small { self.len + length piece.now < 2 ^ 32 }
        ensures wrote { out.new ≡ sent (C.image stream.now.cipher.now) stream.now.nonce self piece.now }
        ensures words { result ≡ steps (C.image stream.now.cipher.now) stream.now.nonce self (length piece.now) }
    {
        let mut words = self;
        let mut at = 0;
        // counted by hand, as `Keystream::xor_onto`, but the words are kept between two pieces: the first part may be short, and a proof knows nothing of what is written through `chunks_mut`
        while at < piece.len() {
            words = words.turn(stream);
            let skip = words.len % 16;
            let end = piece.len().min(at + (16 - skip));
            put_part(words.word, skip, &piece[at..end], &mut out[at..end]);
            words.len += end - at;
            at = end;
        }
        words
    }
}
