ghost use Rattle.std.specs.Prelude.{◌≡◌, length};
ghost use Rattle.method.specs.Published.{crypt};
ghost use Rattle.refusals.specs.Answers.{answered};
ghost use Rattle.sheetlines.specs.Sheets.{header_of, cipher_of};
ghost use Rattle.sheetopener.specs.Laws.{OpenLaws};
ghost use Rattle.sheetopener.specs.Opens.{open_told, open_answer, filled};

use crate::fault::{Buffer, OpenFault};
use crate::read::ReadSheet;
use ciphers::cipher::Permutation;
use sheetlines::fields::Fields;
use sheetreader::sheet::read_sheet;

// Opens a sheet's lines: reads them, confirms the tag, and only then puts the header and the message to the fronts of their buffers;
// the rest of both stays. It refuses what the lines' first fault is (11 to 14), then a buffer that is too small (8, which tells 1 for
// the header's and 2 for the message's), then a tag that is not the sheet's (15), and leaves both buffers as they were. It tells
// nonce, both lengths and the tag's length. The last clause ties it to check and to write.
// No heap here: the caller lends the buffers, and `Fields` tells how much of them is filled.
pub fn open<C: Permutation>(
    cipher: &C,
    text: &[u8],
    header: &mut [u8],
    message: &mut [u8],
) -> Result<Fields, OpenFault>
    ensures answer { answered open_told result ≡
        open_answer (C.image cipher.now) text.now (length header.old) (length message.old) }
    ensures headed { header.new ≡
        filled (answered open_told result) (λ f. header_of f text.now) header.old }
    ensures told { message.new ≡
        filled (answered open_told result) (λ f. crypt (C.image cipher.now) f.nonce (cipher_of f text.now)) message.old }
    ensures laws { OpenLaws }
{
    let fields = read_sheet(text)?;
    let sheet = ReadSheet { text, fields };
    if header.len() < fields.header_len {
        return Err(OpenFault::BufferTooSmall(Buffer::Header));
    }
    if message.len() < fields.message_len {
        return Err(OpenFault::BufferTooSmall(Buffer::Message));
    }
    sheet.confirm(cipher)?;
    sheet.give_header(header);
    sheet.give_message(cipher, message);
    Ok(fields)
}
