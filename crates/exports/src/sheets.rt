// Sealing, checking and the keystream under a cipher that is named by a number.
ghost use Rattle.std.specs.Prelude.{◌≡◌, length, if◌then◌else◌, nat_eq};
ghost use Rattle.exports.specs.Images.{cipher_of};
ghost use Rattle.exports.specs.Sheets.{number_of, under, checked, xored, sealing, seal_text, tag_or};

use crate::fault::{BAD_CALL, status};
use crate::images::cipher_under;
use checks::sheet::calls::check;
use chm::sealer::Sealer;
use keystream::Keystream;
use method::sheet::Sheet;
use refusals::Refusal;
use sealtext::SUPPLY;
use stores::register::Register;

// Checks a sheet and answers 0, or the refusal's number; 7 for a key of another length than the cipher's, 255 for a number that is no cipher's.
#[unsafe(no_mangle)]
pub extern "C" fn navreluk_check(
    cipher: u8,
    key: &[u8],
    nonce: u64,
    header: &[u8],
    ciphertext: &[u8],
    tag: &[u8],
) -> u8
    ensures { result ≡ under (cipher_of cipher) key.now 255 7
        (checked nonce header.now ciphertext.now tag.now) }
{
    let sheet = Sheet {
        nonce,
        header,
        ciphertext,
        tag,
    };
    match cipher_under(cipher, key) {
        Ok(chosen) => status(check(&chosen, &sheet)),
        Err(fault) => fault.number(),
    }
}

// Xors bytes, which stand at a message offset, with the keystream, in place, and answers 0; 7 and 255 as above leave the bytes as they were.
#[unsafe(no_mangle)]
pub extern "C" fn navreluk_xor(
    cipher: u8,
    key: &[u8],
    nonce: u64,
    offset: u64,
    bytes: &mut [u8],
) -> u8
    ensures answer { result ≡ under (cipher_of cipher) key.now 255 7 (λ _. 0) }
    ensures after { bytes.new ≡ under (cipher_of cipher) key.now bytes.old bytes.old
        (xored nonce offset bytes.old) }
{
    match cipher_under(cipher, key) {
        Ok(chosen) => {
            Keystream::new(&chosen, nonce).xor_onto(offset, bytes);
            0
        }
        Err(fault) => fault.number(),
    }
}

// Seals a header and a message under the first nonce of a register at a mark, 1,024 times the mark, and answers 0: the ciphertext is in a buffer of the
// message's length, and the tag, then zeros, in one of sixteen bytes. Else it answers the refusal's number, 7 or 255, as above and for a tag buffer of
// another length, and leaves both as they were. The caller sees to it that no mark serves twice under a key.
#[unsafe(no_mangle)]
pub extern "C" fn navreluk_seal_at(
    cipher: u8,
    key: &[u8],
    mark: u64,
    tag_len: u8,
    header: &[u8],
    message: &[u8],
    out: &mut [u8],
    tag: &mut [u8],
) -> u8
    ensures answer { result ≡ (if nat_eq (length tag.old) 16 then under (cipher_of cipher) key.now 255 7
        (λ E. number_of (sealing mark tag_len header.now message.now (length out.old) E)) else 255) }
    ensures wrote { out.new ≡ (if nat_eq (length tag.old) 16 then under (cipher_of cipher) key.now out.old out.old
        (seal_text mark tag_len header.now message.now out.old) else out.old) }
    ensures tagged { tag.new ≡ (if nat_eq (length tag.old) 16 then under (cipher_of cipher) key.now tag.old tag.old
        (λ E. tag_or tag.old (sealing mark tag_len header.now message.now (length out.old) E)) else tag.old) }
{
    if tag.len() != blocks::BLOCK_BYTES {
        return BAD_CALL;
    }
    match cipher_under(cipher, key) {
        Ok(chosen) => {
            let mut sealer = Sealer::new(chosen, Register::new(mark, SUPPLY));
            match sealer.seal(tag_len, header, message, out) {
                Ok(sealed) => {
                    tag.copy_from_slice(&sealed.tag);
                    0
                }
                Err(fault) => fault.number(),
            }
        }
        Err(fault) => fault.number(),
    }
}
