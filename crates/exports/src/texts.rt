// Sealing and opening a sheet as text: the calls behind the programs sheetseal and sheetopen.
ghost use Rattle.std.specs.Prelude.{◌≡◌, length, take};
ghost use Rattle.exports.specs.Fronts.{fit_count, fit_front, Opened};
ghost use Rattle.opentext.specs.Texts.{sheetopen_text};
ghost use Rattle.sealtext.specs.Texts.{sheetseal_text};

use sealtext::OUTPUT_BYTES;
use std::alloc::Global;

// What is returned for a buffer that is too small, and for want of memory: no output has so many bytes.
// C has no Option and lends its buffers, so a call answers a count, or one of these.
const TOO_SMALL: usize = usize::MAX;

const NO_MEMORY: usize = usize::MAX - 1;

// Puts an output to the front of a buffer and tells how many bytes it has; one that does not fit leaves the buffer as it was.
fn put_front(output: &[u8], out: &mut [u8]) -> usize
    ensures count { result ≡ fit_count output.now (length out.old) }
    ensures wrote { out.new ≡ fit_front output.now out.old }
{
    let count = output.len();
    if count > out.len() {
        return TOO_SMALL;
    }
    out[0..count].copy_from_slice(output);
    count
}

// Seals the sheet that an input of five lines describes, as sheetseal does, and puts its output to the front of a buffer; 65,536 bytes
// always suffice. It tells how many bytes, or the largest number where the buffer is too small, which then stays as it was.
#[unsafe(no_mangle)]
pub extern "C" fn navreluk_sheetseal(input: &[u8], out: &mut [u8]) -> usize
    ensures count { result ≡ fit_count (sheetseal_text (take 65536 input.now)) (length out.old) }
    ensures wrote { out.new ≡ fit_front (sheetseal_text (take 65536 input.now)) out.old }
{
    let mut output = [0; OUTPUT_BYTES];
    let count = sealtext::sheetseal(input, &mut output);
    put_front(&output[0..count], out)
}

// Opens the sheet that an input holds, as sheetopen does, and puts its output to the front of a buffer. It tells how many bytes, the largest
// number where the buffer is too small, or one less where memory is wanting; the buffer then stays as it was.
#[unsafe(no_mangle)]
pub extern "C" fn navreluk_sheetopen(heap: Global, input: &[u8], out: &mut [u8]) -> usize
    ensures { Opened (sheetopen_text input.now) out.old result out.new }
{
    match opentext::sheetopen(heap, input) {
        Ok(output) => put_front(&output, out),
        Err(_) => NO_MEMORY,
    }
}
