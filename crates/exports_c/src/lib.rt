// The static library: each call of `exports` again, under the name by which C and Rust link it.
#![tactic(auto)]

ghost use Rattle.std.specs.Prelude.{◌≡◌, ◌+◌, ◌*◌, ◌^◌, length, take, if◌then◌else◌, nat_eq};
ghost use Rattle.aes.specs.Cipher.{aes_128};
ghost use Rattle.blocks.specs.Blocks.{bytes_of};
ghost use Rattle.keystream.specs.Counters.{ciphered};
ghost use Rattle.polyhash.specs.Hash.{hash};
ghost use Rattle.sealtext.specs.Texts.{sheetseal_text};
ghost use Rattle.opentext.specs.Texts.{sheetopen_text};
ghost use Rattle.exports.specs.Fronts.{fit_count, fit_front, Opened};
ghost use Rattle.exports.specs.Images.{cipher_of, image_answer, image_out};
ghost use Rattle.exports.specs.Sheets.{number_of, under, checked, xored, sealing, seal_text, tag_or};

use std::alloc::Global;

// The hash of bytes.
#[unsafe(no_mangle)]
pub extern "C" fn navreluk_hash(key_high: u64, key_low: u64, bytes: &[u8], out: &mut [u8])
    ensures { out.new ≡ (if nat_eq (length out.old) 16 then bytes_of 16 (hash (key_high * 2 ^ 64 + key_low) bytes.now) else out.old) }
{
    exports::navreluk_hash(key_high, key_low, bytes, out);
}

// Bytes xored with the keystream of AES-128.
#[unsafe(no_mangle)]
pub extern "C" fn navreluk_xor_aes(key: &[u8], nonce: u64, offset: u64, bytes: &mut [u8]) -> u8
    ensures answer { result ≡ (if nat_eq (length key.now) 16 then 0 else 7) }
    ensures after { bytes.new ≡ (if nat_eq (length key.now) 16 then ciphered (aes_128 key.now) nonce offset bytes.old else bytes.old) }
{
    exports::navreluk_xor_aes(key, nonce, offset, bytes)
}

// The image of a block under a cipher's number.
#[unsafe(no_mangle)]
pub extern "C" fn navreluk_image(cipher: u8, key: &[u8], high: u64, low: u64, out: &mut [u8]) -> u8
    ensures answer { result ≡ image_answer (cipher_of cipher) key.now (length out.old) }
    ensures wrote { out.new ≡ image_out (cipher_of cipher) key.now (high * 2 ^ 64 + low) out.old }
{
    exports::images::navreluk_image(cipher, key, high, low, out)
}

// A sheet checked.
#[unsafe(no_mangle)]
pub extern "C" fn navreluk_check(
    cipher: u8,
    key: &[u8],
    nonce: u64,
    header: &[u8],
    ciphertext: &[u8],
    tag: &[u8],
) -> u8
    ensures { result ≡ under (cipher_of cipher) key.now 255 7
        (checked nonce header.now ciphertext.now tag.now) }
{
    exports::sheets::navreluk_check(cipher, key, nonce, header, ciphertext, tag)
}

// Bytes xored with the keystream under a cipher's number.
#[unsafe(no_mangle)]
pub extern "C" fn navreluk_xor(
    cipher: u8,
    key: &[u8],
    nonce: u64,
    offset: u64,
    bytes: &mut [u8],
) -> u8
    ensures answer { result ≡ under (cipher_of cipher) key.now 255 7 (λ _. 0) }
    ensures after { bytes.new ≡ under (cipher_of cipher) key.now bytes.old bytes.old
        (xored nonce offset bytes.old) }
{
    exports::sheets::navreluk_xor(cipher, key, nonce, offset, bytes)
}

// A header and a message sealed under the first nonce of a register at a mark.
#[unsafe(no_mangle)]
pub extern "C" fn navreluk_seal_at(
    cipher: u8,
    key: &[u8],
    mark: u64,
    tag_len: u8,
    header: &[u8],
    message: &[u8],
    out: &mut [u8],
    tag: &mut [u8],
) -> u8
    ensures answer { result ≡ (if nat_eq (length tag.old) 16 then under (cipher_of cipher) key.now 255 7
        (λ E. number_of (sealing mark tag_len header.now message.now (length out.old) E)) else 255) }
    ensures wrote { out.new ≡ (if nat_eq (length tag.old) 16 then under (cipher_of cipher) key.now out.old out.old
        (seal_text mark tag_len header.now message.now out.old) else out.old) }
    ensures tagged { tag.new ≡ (if nat_eq (length tag.old) 16 then under (cipher_of cipher) key.now tag.old tag.old
        (λ E. tag_or tag.old (sealing mark tag_len header.now message.now (length out.old) E)) else tag.old) }
{
    exports::sheets::navreluk_seal_at(cipher, key, mark, tag_len, header, message, out, tag)
}

// What sheetseal prints for an input.
#[unsafe(no_mangle)]
pub extern "C" fn navreluk_sheetseal(input: &[u8], out: &mut [u8]) -> usize
    ensures count { result ≡ fit_count (sheetseal_text (take 65536 input.now)) (length out.old) }
    ensures wrote { out.new ≡ fit_front (sheetseal_text (take 65536 input.now)) out.old }
{
    exports::texts::navreluk_sheetseal(input, out)
}

// What sheetopen prints for an input.
#[unsafe(no_mangle)]
pub extern "C" fn navreluk_sheetopen(heap: Global, input: &[u8], out: &mut [u8]) -> usize
    ensures { Opened (sheetopen_text input.now) out.old result out.new }
{
    exports::texts::navreluk_sheetopen(heap, input, out)
}
