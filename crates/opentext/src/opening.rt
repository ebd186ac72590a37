// Opening what an input holds under the cipher that it names.
ghost use Rattle.std.specs.Prelude.{◌≡◌, IfOk};
ghost use Rattle.digits.specs.Hex.{unhex};
ghost use Rattle.inputlines.specs.Openings.{opening_told};
ghost use Rattle.opentext.specs.Texts.{opened_text, named_text};

use crate::text::{refused_key, refused_open, sheet_lines};
use ciphers::cipher::Permutation;
use digits::codec::decode;
use inputlines::opening::Opening;
use method::limits::{HEADER_LIMIT, MESSAGE_LIMIT};
use sheetopener::open::open;
use std::alloc::{AllocError, Global};

// The bytes that digits are.
// The digits were judged when the line was read, so it cannot refuse, as `digits::bytes` may.
fn bytes_of(heap: Global, text: &[u8]) -> Result<Vec<u8>, AllocError>
    ensures { IfOk result (λ v. v.items ≡ unhex text.now) }
{
    let mut bytes = vec![in heap; 0u8; text.len() / 2]?;
    decode(text, &mut bytes);
    Ok(bytes)
}

// Header and message of the sheet's lines, a line each, or the refusal.
fn open_text<C: Permutation>(heap: Global, cipher: &C, text: &[u8]) -> Result<Vec<u8>, AllocError>
    ensures { IfOk result (λ v. v.items ≡ opened_text (C.image cipher.now) text.now) }
{
    let mut header = vec![in heap; 0u8; HEADER_LIMIT]?;
    let mut message = vec![in heap; 0u8; MESSAGE_LIMIT]?;
    match open(cipher, text, &mut header, &mut message) {
        Ok(fields) => {
            header.truncate(fields.header_len);
            message.truncate(fields.message_len);
            sheet_lines(heap, &header, &message)
        }
        Err(fault) => refused_open(heap, fault),
    }
}

// The same under the cipher that the input names, and its key in digits.
pub(crate) fn open_named(heap: Global, opening: Opening<'_>) -> Result<Vec<u8>, AllocError>
    ensures { IfOk result (λ v. v.items ≡ named_text (opening_told opening.entry)) }
{
    let key = bytes_of(heap, opening.key)?;
    match opening.name.under_key(&key) {
        Ok(cipher) => open_text(heap, &cipher, opening.rest),
        Err(fault) => refused_key(heap, fault),
    }
}
