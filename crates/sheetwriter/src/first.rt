// Line 1 of a sheet.
ghost use Rattle.std.specs.Prelude.{◌≡◌, None};
ghost use Rattle.sheetlines.specs.Sheets.{field_fault, first_bytes};

use sheetlines::fields::Fields;
use sheetlines::layout::FIRST_BYTES;

// The bytes that line 1 tells: the nonce, the lengths of message and header, and that of the tag.
pub(crate) fn first_bytes(fields: Fields) -> [u8; FIRST_BYTES]
    requires { field_fault fields ≡ None }
    ensures { result ≡ first_bytes fields.nonce fields.message_len fields.header_len fields.tag_len }
{
    let mut bytes = [0; FIRST_BYTES];
    bytes[..8].copy_from_slice(&fields.nonce.to_be_bytes());
    bytes[8..12].copy_from_slice(&(fields.message_len as u32).to_be_bytes());
    bytes[12..14].copy_from_slice(&(fields.header_len as u16).to_be_bytes());
    bytes[14] = fields.tag_len as u8;
    bytes
}
