// The bytes that lines tell, read from their digits: hashed, and given out.
ghost use Rattle.std.specs.Prelude.{◌≡◌, ◌+◌, ◌*◌, ◌≤◌, length, take, drop};
ghost use Rattle.digits.specs.Hex.{unhex};
ghost use Rattle.polyhash.specs.Hash.{hash};
ghost use Rattle.sheetlines.specs.Lines.{lines_size, bytes_in};
ghost use Rattle.sheetlines.specs.Sheets.{frames_of};

use digits::codec::decode;
use polyhash::running::Running;
use polyhash::running::calls::hash_of;
use sheetlines::frames::Frames;
use sheetlines::layout::LATER_FRAME;

// The digits of a line that tells so many bytes, and what follows the line.
pub(crate) fn split_line(text: &[u8], width: usize) -> (&[u8], &[u8])
    requires { 2 * width + 1 ≤ length text.now }
    ensures digits { result.0.now ≡ take (2 * width) text.now }
    ensures others { result.1.now ≡ drop (2 * width + 1) text.now }
{
    (&text[..2 * width], &text[2 * width + 1..])
}

// There is no heap here, so a line's bytes have a room as long as can be.
// The hash of the bytes that one line's digits tell.
pub(crate) fn hash_line(key: u128, digits: &[u8]) -> u128
    requires { length digits.now ≤ 8192 }
    ensures { result ≡ hash key (unhex digits.now) }
{
    let mut line = [0; LATER_FRAME];
    let part = &mut line[..digits.len() / 2];
    decode(digits, part);
    hash_of(key, part)
}

// The hash of a ciphertext that a text's first lines tell.
pub(crate) fn hash_body(key: u128, text: &[u8], message_len: usize) -> u128
    requires { lines_size (frames_of message_len) ≤ length text.now }
    ensures { result ≡ hash key (bytes_in (frames_of message_len) text.now) }
{
    let mut running = Running::new(key);
    let mut line = [0; LATER_FRAME];
    let mut rest = text;
    for width in Frames::of(message_len) {
        let (digits, others) = split_line(rest, width);
        let part = &mut line[..width];
        decode(digits, part);
        running.absorb(part);
        rest = others;
    }
    running.finish()
}

// Fills a buffer with a ciphertext that a text's first lines tell.
pub(crate) fn take_body(text: &[u8], out: &mut [u8])
    requires { lines_size (frames_of (length out.old)) ≤ length text.now }
    ensures { out.new ≡ bytes_in (frames_of (length out.old)) text.now }
{
    let mut rest = text;
    let mut done = 0;
    // No `split_at_mut` turn by turn: a loop's invariant cannot name what the parts before hold.
    for width in Frames::of(out.len()) {
        let (digits, others) = split_line(rest, width);
        decode(digits, &mut out[done..done + width]);
        done += width;
        rest = others;
    }
}
