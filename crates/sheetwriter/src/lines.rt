// Lines put into a buffer one after another.
ghost use Rattle.std.specs.Prelude.{◌≡◌, ◌+◌, ◌*◌, ◌≤◌, length, None};
ghost use Rattle.method.specs.Limits.{message_limit};
ghost use Rattle.sheetlines.specs.Lines.{line_of, lines_size};
ghost use Rattle.sheetlines.specs.Sheets.{field_fault, widths, header_at, frames_of, body_lines};
ghost use Rattle.sheetwriter.specs.Puts.{put};

use digits::codec::digits_of;
use sheetlines::fields::Fields;
use sheetlines::frames::Frames;
use sheetlines::layout::HEADER_AT;

// Puts bytes as a line, and tells where it ends.
pub(crate) fn put_line(out: &mut [u8], at: usize, bytes: &[u8]) -> usize
    requires { at + 2 * length bytes.now + 1 ≤ length out.old }
    ensures wrote { out.new ≡ put out.old at (line_of bytes.now) }
    ensures next { result ≡ at + 2 * length bytes.now + 1 }
{
    let mut end = at;
    // No `chunks_exact_mut`: the library says nothing of the values that are written through one.
    for byte in bytes {
        out[end..end + 2].copy_from_slice(&digits_of(*byte));
        end += 2;
    }
    out[end] = b'\n';
    end + 1
}

// How many bytes the lines of a ciphertext have: two digits a byte, and a line feed a line.
fn body_size(message_len: usize) -> usize
    requires { message_len ≤ message_limit }
    ensures size { result ≡ lines_size (frames_of message_len) }
    ensures small { result ≤ 3 * message_len }
{
    2 * message_len + Frames::of(message_len).count()
}

// How many bytes the lines of a sheet have.
#[tactic(auto, using(sheetlines::proofs::Widths::size_append))]
pub(crate) fn sheet_size(fields: Fields) -> usize
    requires { field_fault fields ≡ None }
    ensures { result ≡ header_at + lines_size (widths fields) }
{
    HEADER_AT
        + (2 * fields.header_len + 1)
        + body_size(fields.message_len)
        + (2 * fields.tag_len + 1)
}

// Puts the lines of a ciphertext, a frame a line, and tells where they end.
// A place is handed on, since the lines differ in width, and a proof knows nothing of what is written through `chunks_mut`.
pub(crate) fn put_body(out: &mut [u8], start: usize, ciphertext: &[u8]) -> usize
    requires { start + lines_size (frames_of (length ciphertext.now)) ≤ length out.old }
    ensures wrote { out.new ≡
        put out.old start (body_lines (frames_of (length ciphertext.now)) ciphertext.now) }
    ensures next { result ≡ start + lines_size (frames_of (length ciphertext.now)) }
{
    let mut at = start;
    let mut rest = ciphertext;
    for width in Frames::of(ciphertext.len()) {
        let (line, others) = rest.split_at(width);
        at = put_line(out, at, line);
        rest = others;
    }
    at
}
