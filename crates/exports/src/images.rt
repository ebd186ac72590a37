// The image of a block under a cipher that is named by a number.
ghost use Rattle.std.specs.Prelude.{◌≡◌, ◌+◌, ◌*◌, ◌^◌, length};
ghost use Rattle.ciphers.specs.Keys.{meant};
ghost use Rattle.cipherlines.specs.Chosen.{chosen_image};
ghost use Rattle.refusals.specs.Answers.{answered};
ghost use Rattle.exports.specs.Calls.{call_told, call_answer};
ghost use Rattle.exports.specs.Images.{cipher_of, image_answer, image_out};

use crate::fault::{BAD_CALL, CallFault};
use cipherlines::chosen::{Chosen, Name};
use ciphers::cipher::Permutation;
use refusals::Refusal;

// C names a cipher by a number; from here on it is a name.
fn cipher_of(number: u8) -> Option<Name>
    ensures { result ≡ cipher_of number }
{
    match number {
        1 => Some(Name::Practice),
        2 => Some(Name::Aes),
        3 => Some(Name::Speck),
        _ => None,
    }
}

// The block of two halves, the higher first.
pub(crate) fn block_of(high: u64, low: u64) -> u128
    ensures { result ≡ high * 2 ^ 64 + low }
{
    u128::from(high) * (1 << 64) + u128::from(low)
}

// The cipher of a number, under a key.
pub(crate) fn cipher_under(number: u8, key: &[u8]) -> Result<Chosen, CallFault>
    ensures { answered call_told (meant chosen_image result) ≡ call_answer (cipher_of number) key.now }
{
    let name = cipher_of(number).ok_or(CallFault::NoCipher)?;
    Ok(name.under_key(key)?)
}

// Writes the image of the block of two halves, the higher first, to a buffer of sixteen bytes, and answers 0. The ciphers are 1 Practice, 2
// AES-128, 3 Speck128/256; another number, or a buffer of another length, is answered 255, and a key of another length than the cipher's 7. The
// buffer then stays as it was.
#[unsafe(no_mangle)]
pub extern "C" fn navreluk_image(cipher: u8, key: &[u8], high: u64, low: u64, out: &mut [u8]) -> u8
    ensures answer { result ≡ image_answer (cipher_of cipher) key.now (length out.old) }
    ensures wrote { out.new ≡ image_out (cipher_of cipher) key.now (high * 2 ^ 64 + low) out.old }
{
    if out.len() != blocks::BLOCK_BYTES {
        return BAD_CALL;
    }
    match cipher_under(cipher, key) {
        Ok(chosen) => {
            let image = blocks::to_bytes(chosen.image_of(block_of(high, low)));
            out.copy_from_slice(&image);
            0
        }
        Err(fault) => fault.number(),
    }
}
