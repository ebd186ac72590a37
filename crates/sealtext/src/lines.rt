ghost use Rattle.std.specs.Prelude.{◌≡◌, ◌≤◌, length, IfOk, Ok, Err, MatchResult};
ghost use Rattle.digits.specs.Hex.{unhex};
ghost use Rattle.inputlines.specs.Faults.{line_number};
ghost use Rattle.sealtext.specs.Inputs.{longest_message, last_line, parsed, lines_told};

use cipherlines::chosen::Name;
use inputlines::fault::BadLine;
use inputlines::line::{bytes_line, number_line};
use inputlines::opening::read_opening;

// `storelines` has the same of its own lines; no crate below both knows of lines
const MARK_DIGITS: usize = 14;

pub(crate) const LONGEST_MESSAGE: usize = 16384;

// What the five lines of an input tell; key, header and message are still in digits.
// A key lies in it, so it derives neither printing nor comparison.
#[derive(Clone, Copy)]
pub(crate) struct Lines<'a> {
    pub(crate) name: Name,
    pub(crate) key: &'a [u8],
    pub(crate) mark: u64,
    pub(crate) header: &'a [u8],
    pub(crate) message: &'a [u8],
}

// Reads the last line, a message in digits; the line that is not of its form is the fault.
fn last_line(text: &[u8]) -> Result<&[u8], BadLine>
    ensures told { MatchResult result (λ m. last_line text.now ≡ Ok (unhex m.now))
        (λ l. last_line text.now ≡ Err (line_number l)) }
    ensures small { IfOk result (λ m. length (unhex m.now) ≤ longest_message) }
{
    let (message, rest) = bytes_line(text).ok_or(BadLine::Message)?;
    if message.len() / 2 > LONGEST_MESSAGE {
        return Err(BadLine::Message);
    }
    if !rest.is_empty() {
        return Err(BadLine::Behind);
    }
    Ok(message)
}

// Reads the five lines. The first one that is not of its form is the fault; bytes behind the fifth are one more.
pub(crate) fn parse(text: &[u8]) -> Result<Lines<'_>, BadLine>
    ensures told { MatchResult result (λ l. parsed text.now ≡ Ok (lines_told l))
        (λ l. parsed text.now ≡ Err (line_number l)) }
    ensures small { IfOk result (λ l. length (unhex l.message.now) ≤ longest_message) }
{
    let opening = read_opening(text)?;
    let (mark, after) = number_line(opening.rest, MARK_DIGITS).ok_or(BadLine::Mark)?;
    let (header, after) = bytes_line(after).ok_or(BadLine::Header)?;
    let message = last_line(after)?;
    Ok(Lines {
        name: opening.name,
        key: opening.key,
        mark: mark as u64,
        header,
        message,
    })
}
