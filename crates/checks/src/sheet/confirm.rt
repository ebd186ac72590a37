ghost use Rattle.std.specs.Prelude.{◌≡◌, ◌≤◌, length, take, Decides};
ghost use Rattle.keystream.specs.Counters.{block_at};
ghost use Rattle.method.specs.Published.{tag_block};
ghost use Rattle.refusals.specs.Answers.{answered};
ghost use Rattle.checks.specs.Checks.{check_told};
ghost use Rattle.checks.specs.Tags.{tag_answer};

use crate::fault::CheckFault;
use ciphers::cipher::Permutation;
use keystream::Keystream;
use method::tag_bytes;

// Whether a tag is the front of the full one. Every byte is looked at, so that the time does not tell where they differ.
fn same_front(tag: &[u8], full: &[u8]) -> bool
    requires { length tag.now ≤ length full.now }
    ensures { Decides result (take (length tag.now) full.now ≡ tag.now) }
{
    let mut gap = 0;
    // by index: with a zip the proof did not find which byte of `full` is at hand
    for (k, byte) in tag.iter().enumerate() {
        gap |= full[k] ^ *byte;
    }
    gap == 0
}

// Confirms the tag of a sheet whose hashes are at hand, of the ciphertext and of the header, each under its hash key; a tag that is not
// the sheet's is refused as 15. The limits are not tested.
pub fn confirm_tag<C: Permutation>(
    cipher: &C,
    nonce: u64,
    ciphertext_hash: u128,
    header_hash: u128,
    tag: &[u8],
) -> Result<(), CheckFault>
    ensures { answered check_told result ≡
        tag_answer (tag_block ciphertext_hash header_hash (block_at (C.image cipher.now) nonce 0)) tag.now }
{
    let first_block = Keystream::new(cipher, nonce).block_of(0);
    let full = tag_bytes(ciphertext_hash, header_hash, first_block);
    if tag.len() > full.len() {
        return Err(CheckFault::TagDiffers);
    }
    if !same_front(tag, &full) {
        return Err(CheckFault::TagDiffers);
    }
    Ok(())
}
