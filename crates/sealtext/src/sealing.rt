// Sealing what the five lines of an input tell.
ghost use Rattle.std.specs.Prelude.{◌≡◌, ◌/◌, ◌^◌, ◌<◌, ◌≤◌, [], length};
ghost use Rattle.refusals.specs.Answers.{answered};
ghost use Rattle.cipherlines.specs.Chosen.{key_bytes, standard_of, chosen_image};
ghost use Rattle.ciphers.specs.Keys.{key_told, made_answer, meant};
ghost use Rattle.digits.specs.Hex.{unhex};
ghost use Rattle.method.specs.Limits.{header_limit, message_limit};
ghost use Rattle.method.specs.Published.{crypt, tag};
ghost use Rattle.chm.specs.Drafts.{words_of, head_told};
ghost use Rattle.sealtext.specs.Inputs.{longest_message, lines_told};
ghost use Rattle.sealtext.specs.Seals.{fault_told, tag_bytes, sheet_lines, header_answer, seal_input, counted};
ghost use Rattle.sealtext.specs.Texts.{on_front, answer_front};

use crate::fault::InputFault;
use crate::lines::{LONGEST_MESSAGE, Lines};
use crate::{OUTPUT_BYTES, SUPPLY};
use chm::draft::{Draft, Sealed};
use chm::fault::HeadFault;
use chm::sealer::Sealer;
use cipherlines::chosen::{Chosen, Name};
use ciphers::cipher::Permutation;
use ciphers::fault::KeyFault;
use digits::codec::decode;
use method::limits::HEADER_LIMIT;
use method::sheet::Sheet;
use sheetwriter::write;
use stores::register::Register;

// No cipher has longer keys.
const LONGEST_KEY: usize = 32;

const TAG_BYTES: u8 = 16;

// The bytes that digits are, in a buffer that has room for them. There is no heap here, so rooms are as long as can be.
fn bytes_in<'a>(text: &[u8], room: &'a mut [u8]) -> &'a [u8]
    requires { length text.now / 2 ≤ length room.old }
    ensures { result.now ≡ unhex text.now }
{
    let len = text.len() / 2;
    decode(text, &mut room[..len]);
    &room[..len]
}

// The named cipher under a key in digits; a key of the wrong length is refused as 7.
fn cipher_of(name: Name, key: &[u8]) -> Result<Chosen, KeyFault>
    ensures { answered key_told (meant chosen_image result) ≡
        made_answer (key_bytes name) (standard_of name) (unhex key.now) }
{
    if key.len() / 2 > LONGEST_KEY {
        return Err(KeyFault::WrongLength);
    }
    let mut room = [0; LONGEST_KEY];
    name.under_key(bytes_in(key, &mut room))
}

// A header in digits, of more bytes than a header may have, is refused as 1. A draft would want the bytes to judge, for which there is
// no room then.
fn header_fits(header: &[u8]) -> Result<(), HeadFault>
    ensures { answered head_told result ≡ header_answer (unhex header.now) }
{
    if header.len() / 2 > HEADER_LIMIT {
        return Err(HeadFault::HeaderTooLong);
    }
    Ok(())
}

// Feeds a header and a message to a new draft, and finishes it; the ciphertext has the message's length.
// Not `Sealer::seal`, which judges the header before it begins: here a full register is refused first.
fn finish_draft<C: Permutation>(
    mut draft: Draft,
    cipher: &C,
    header: &[u8],
    message: &[u8],
    ciphertext: &mut [u8],
) -> Sealed
    requires begun { draft ≡ words_of (C.image cipher.now) draft.nonce tag_bytes [] [] }
    requires nonce { draft.nonce < 2 ^ 63 }
    requires header { length header.now ≤ header_limit }
    requires message { length message.now ≤ message_limit }
    requires room { length ciphertext.old ≡ length message.now }
    ensures nonce { result.nonce ≡ draft.nonce }
    ensures tag { result.tag ≡
        tag (C.image cipher.now) tag_bytes draft.nonce header.now
        (crypt (C.image cipher.now) draft.nonce message.now) }
    ensures wrote { ciphertext.new ≡ crypt (C.image cipher.now) draft.nonce message.now }
{
    // both are within the limits, so neither is refused
    let _ = draft.head(header);
    let _ = draft.body(cipher, message, ciphertext);
    draft.finish()
}

// Finishes a new draft with a header and a message in digits, and writes the sheet's lines.
fn write_sheet<C: Permutation>(
    draft: Draft,
    cipher: &C,
    header: &[u8],
    message: &[u8],
    out: &mut [u8; OUTPUT_BYTES],
) -> usize
    requires begun { draft ≡ words_of (C.image cipher.now) draft.nonce tag_bytes [] [] }
    requires nonce { draft.nonce < 2 ^ 63 }
    requires header { length (unhex header.now) ≤ header_limit }
    requires message { length (unhex message.now) ≤ longest_message }
    ensures count { result ≡
        length (sheet_lines (C.image cipher.now) (unhex header.now) (unhex message.now) draft.nonce) }
    ensures wrote { out.new ≡
        on_front (sheet_lines (C.image cipher.now) (unhex header.now) (unhex message.now) draft.nonce)
        out.old }
{
    let mut header_room = [0; HEADER_LIMIT];
    let mut message_room = [0; LONGEST_MESSAGE];
    let mut cipher_room = [0; LONGEST_MESSAGE];
    let header = bytes_in(header, &mut header_room);
    let message = bytes_in(message, &mut message_room);
    let ciphertext = &mut cipher_room[..message.len()];
    let sealed = finish_draft(draft, cipher, header, message, ciphertext);
    let sheet = Sheet {
        nonce: sealed.nonce,
        header,
        ciphertext,
        tag: &sealed.tag,
    };
    // the sheet keeps its limits and fits, so it is not refused
    write(&sheet, out).unwrap_or(0)
}

// Seals what the lines tell, and writes the sheet's lines to the front of an output. A key of the wrong length is refused as 7, a
// register that is full as 22, a header over 4,096 bytes as 1, in this order; the output then stays.
pub(crate) fn seal(lines: &Lines<'_>, out: &mut [u8; OUTPUT_BYTES]) -> Result<usize, InputFault>
    requires { length (unhex lines.now.message.now) ≤ longest_message }
    ensures answer { answered fault_told result ≡ counted (seal_input (lines_told lines.now)) }
    ensures wrote { out.new ≡ answer_front (seal_input (lines_told lines.now)) out.old }
{
    let cipher = cipher_of(lines.name, lines.key)?;
    let mut sealer = Sealer::new(cipher, Register::new(lines.mark, SUPPLY));
    let draft = sealer.begin(TAG_BYTES)?;
    header_fits(lines.header)?;
    Ok(write_sheet(draft, sealer.cipher(), lines.header, lines.message, out))
}
