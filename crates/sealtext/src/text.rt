// A line that tells a number.
ghost use Rattle.std.specs.Prelude.{◌≡◌, ◌+◌, ◌<◌, ◌≤◌, length};
ghost use Rattle.sealtext.specs.Texts.{told_line, on_front};

// Puts a word, a number in decimal digits and a line feed to the front of a buffer, and tells how many bytes these are.
// By hand: `format!` wants the heap, and of a `write!` to bytes a clause knows nothing.
pub(crate) fn put_told(word: &str, number: u8, out: &mut [u8]) -> usize
    requires two { number < 100 }
    requires room { length word.now + 3 ≤ length out.old }
    ensures count { result ≡ length (told_line word.now number) }
    ensures wrote { out.new ≡ on_front (told_line word.now number) out.old }
{
    let at = word.len();
    out[..at].copy_from_slice(word.as_bytes());
    if number < 10 {
        out[at] = b'0' + number;
        out[at + 1] = b'\n';
        at + 2
    } else {
        out[at] = b'0' + number / 10;
        out[at + 1] = b'0' + number % 10;
        out[at + 2] = b'\n';
        at + 3
    }
}
