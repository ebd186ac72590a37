ghost use Rattle.std.specs.Prelude.{◌≡◌, Ok, Err, MatchResult};
ghost use Rattle.inputlines.specs.Faults.{line_number};
ghost use Rattle.inputlines.specs.Openings.{opened, opening_told};

use crate::fault::BadLine;
use crate::line::{bytes_line, name_line};
use cipherlines::chosen::Name;

// The first two lines of an input, a cipher's name and a key, which is still in digits, and what stands behind them. It holds a key,
// so it derives neither printing nor comparison.
#[derive(Clone, Copy)]
pub struct Opening<'a> {
    pub name: Name,
    pub key: &'a [u8],
    pub rest: &'a [u8],
}

// Reads the first two lines: a cipher's name, and a key in digits, two a byte. The first line that is not of that form is the fault.
pub fn read_opening(text: &[u8]) -> Result<Opening<'_>, BadLine>
    ensures { MatchResult result (λ o. opened text.now ≡ Ok (opening_told o))
        (λ l. opened text.now ≡ Err (line_number l)) }
{
    let (name, after) = name_line(text).ok_or(BadLine::Name)?;
    let (key, rest) = bytes_line(after).ok_or(BadLine::Key)?;
    Ok(Opening { name, key, rest })
}
