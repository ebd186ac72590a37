// A sheet sealed of an input in lines, and told in lines.
#![tactic(auto)]

ghost use Rattle.std.specs.Prelude.{◌≡◌, ◌≤◌, ◌++◌, length, take, drop};
ghost use Rattle.sealtext.specs.Texts.{sheetseal_text, on_front};

use crate::lines::parse;
use crate::sealing::seal;
use crate::text::put_told;
use refusals::Refusal;
use stores::store::UNWRITTEN;
use stores::supply::Supply;

mod fault;
mod lines;
mod sealing;
mod text;

// What lies behind so many bytes of an input does not exist.
const INPUT_LIMIT: usize = 65536;

// No output is longer. There is no heap here: an output is an array of this length, and a count says how much of it is used.
pub const OUTPUT_BYTES: usize = 65536;

// What a register is handed that seals one sheet: the largest power, and a leftover byte that leaves the mark.
pub const SUPPLY: Supply = Supply {
    power: u32::MAX,
    leftover: UNWRITTEN,
};

// Answers a text: the lines of the sheet that it is sealed to, or one line that tells a bad line or a refusal.
fn answer(text: &[u8], out: &mut [u8; OUTPUT_BYTES]) -> usize
    ensures count { result ≡ length (sheetseal_text text.now) }
    ensures wrote { out.new ≡ on_front (sheetseal_text text.now) out.old }
{
    match parse(text) {
        Err(line) => put_told("bad line ", line.number(), out),
        Ok(lines) => match seal(&lines, out) {
            Err(fault) => put_told("refused ", fault.number(), out),
            Ok(count) => count,
        },
    }
}

// Seals the sheet that an input of five lines describes, and puts the sheet's lines to the front of an output; the rest of the output
// stays, and the result is how many bytes were put. The five lines are a cipher's name, a key, the mark that a register starts at, a
// header, and a message of at most 16,384 bytes; a mark is fourteen digits, and key, header and message are two digits a byte. The
// tag has sixteen bytes, and the nonce is the first that a sealer over that register issues. The first line that is not of its form is
// told as `bad line n`, bytes behind the fifth as line 6. Then a key of another length than the cipher's is told as `refused 7`, a
// register that is full as `refused 22`, and a header over 4,096 bytes as `refused 1`. Only the first 65,536 bytes of the input count.
pub fn sheetseal(input: &[u8], out: &mut [u8; OUTPUT_BYTES]) -> usize
    ensures within { result ≤ 65536 }
    ensures count { result ≡ length (sheetseal_text (take 65536 input.now)) }
    ensures wrote { out.new ≡
        sheetseal_text (take 65536 input.now)
        ++ drop (length (sheetseal_text (take 65536 input.now))) out.old }
{
    let end = input.len().min(INPUT_LIMIT);
    answer(&input[..end], out)
}
