// The xor of bytes with the keystream, from any byte of the message on.
ghost use Rattle.std.specs.Prelude.{◌≡◌, ◌+◌, ◌/◌, ◌^◌, ◌<◌, ◌≤◌, ◌++◌, if◌then◌else◌, length, drop, nat_le, Ok, Err};
ghost use Rattle.keystream.specs.Counters.{stream_from, ciphered, xored};
ghost use Rattle.keystream.specs.Buffers.{too_short};

use crate::Keystream;
use crate::frame::FRAME_BLOCKS;
use blocks::BLOCK_BYTES;
use ciphers::cipher::Permutation;

// The keystream block of a message's byte. Block 0 is the tag's.
fn index_at(position: u128) -> u64
    requires { position < 2 ^ 65 }
    ensures { result ≡ 1 + position / 16 }
{
    (1 + position / 16) as u64
}

// Xors the bytes of a part, in place, with those of a keystream block from `skip` on, as far as the block reaches.
pub fn xor_part(word: u128, skip: usize, part: &mut [u8])
    ensures { part.new ≡ xored word skip part.old }
{
    let stream = blocks::to_bytes(word);
    let from = skip.min(BLOCK_BYTES);
    let end = part.len().min(BLOCK_BYTES - from);
    let front = &mut part[..end];
    // by index: a proof knows nothing of what is written through a zip
    for (k, byte) in front.iter_mut().enumerate() {
        *byte ^= stream[from + k];
    }
}

// A buffer is shorter than the piece that should be written to it.
#[derive(Clone, Copy, Debug, PartialEq, Eq)]
pub struct ShortBuffer;

impl<C: Permutation> Keystream<'_, C> {
    // Xors bytes that stand at a message offset, in place. Nothing before the offset is worked out.
    pub fn xor_onto(&self, offset: u64, bytes: &mut [u8])
        ensures { bytes.new ≡ ciphered (C.image self.now.cipher.now) self.now.nonce offset bytes.old }
    {
        let mut veil = 0;
        let mut at = 0;
        // counted by hand: the first part may be short, and a proof knows nothing of what is written through `chunks_mut`
        while at < bytes.len() {
            // in 128 bits, so that no offset is too large
            let position = u128::from(offset) + at as u128;
            let index = index_at(position);
            // a frame's mask is worked out once
            if at == 0 || index % FRAME_BLOCKS == 0 {
                veil = self.reached_mask(index / FRAME_BLOCKS);
            }
            let skip = (position % 16) as usize;
            let end = bytes.len().min(at + (16 - skip));
            xor_part(self.reached_block(index, veil), skip, &mut bytes[at..end]);
            at = end;
        }
    }

    // Writes a piece that stands at a message offset, xored, to the front of a buffer. A buffer that is shorter than the
    // piece is refused, and stays as it was.
    pub fn xor_into(&self, offset: u64, piece: &[u8], out: &mut [u8]) -> Result<(), ShortBuffer>
        ensures fits { result ≡ (if nat_le (length piece.now) (length out.old) then Ok tt else Err too_short) }
        ensures written { length piece.now ≤ length out.old → out.new ≡
            ciphered (C.image self.now.cipher.now) self.now.nonce offset piece.now
            ++ drop (length piece.now) out.old }
        ensures kept { length out.old < length piece.now → out.new ≡ out.old }
    {
        if out.len() < piece.len() {
            return Err(ShortBuffer);
        }
        let front = &mut out[..piece.len()];
        front.copy_from_slice(piece);
        self.xor_onto(offset, front);
        Ok(())
    }

    // Fills a buffer with the keystream's bytes from a message offset on.
    pub fn stream_bytes(&self, offset: u64, out: &mut [u8])
        ensures { out.new ≡ stream_from (C.image self.now.cipher.now) self.now.nonce offset (length out.old) }
    {
        out.fill(0);
        self.xor_onto(offset, out);
    }
}
