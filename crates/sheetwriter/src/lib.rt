// Writing the lines of a sheet.
#![tactic(auto)]

ghost use Rattle.std.specs.Prelude.{◌≡◌, length};
ghost use Rattle.refusals.specs.Answers.{answered};
ghost use Rattle.sheetlines.specs.Sheets.{lines_of};
ghost use Rattle.sheetwriter.specs.Writes.{write_told, write_answer, written};

use crate::fault::WriteFault;
use crate::first::first_bytes;
use crate::lines::{put_body, put_line, sheet_size};
use method::sheet::Sheet;
use sheetlines::fields::Fields;

pub mod fault;
mod first;
mod lines;

// Puts the lines of a sheet into the front of a buffer, and tells how many bytes they have; the rest of the buffer stays. It refuses
// a tag of another length than 12 to 16, a nonce of 2^63 or more, a header above 4,096 bytes, a ciphertext above 1,048,576, and a
// buffer that the lines do not fit, in this order, and then leaves the buffer as it was. It does not judge the tag, and needs no
// cipher.
// No heap here: the caller lends the buffer, and the count tells how much of it is filled.
pub fn write(sheet: &Sheet<'_, '_>, out: &mut [u8]) -> Result<usize, WriteFault>
    ensures answer { answered write_told result ≡ write_answer
        sheet.now.nonce sheet.now.header.now sheet.now.ciphertext.now sheet.now.tag.now (length out.old) }
    ensures wrote { out.new ≡ written
        (write_answer sheet.now.nonce sheet.now.header.now sheet.now.ciphertext.now sheet.now.tag.now (length out.old))
        (lines_of sheet.now.nonce sheet.now.header.now sheet.now.ciphertext.now sheet.now.tag.now) out.old }
{
    sheet.within_limits()?;
    let fields = Fields {
        nonce: sheet.nonce,
        message_len: sheet.ciphertext.len(),
        header_len: sheet.header.len(),
        tag_len: sheet.tag.len(),
    };
    if sheet_size(fields) > out.len() {
        return Err(WriteFault::BufferTooSmall);
    }
    let header_at = put_line(out, 0, &first_bytes(fields));
    let body_at = put_line(out, header_at, sheet.header);
    let tag_at = put_body(out, body_at, sheet.ciphertext);
    let end = put_line(out, tag_at, sheet.tag);
    Ok(end)
}
