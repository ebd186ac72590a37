// A sheet opened of an input in lines, and told in lines.
#![tactic(auto)]

ghost use Rattle.std.specs.Prelude.{◌≡◌, IfOk};
ghost use Rattle.opentext.specs.Texts.{sheetopen_text};

use crate::opening::open_named;
use crate::text::bad_line;
use inputlines::opening::read_opening;
use std::alloc::{AllocError, Global};

mod opening;
mod text;

// Opens the sheet that an input holds: a line with a cipher's name, one with a key in digits, and then the sheet's lines. The output is
// the header and the message in digits, a line each; a line `bad line n` where the name (1) or the key (2) is not of its form; or a line
// `refused n` with what the refusal tells: 7 for a key of another length than the cipher's, and then what opening refuses.
pub fn sheetopen(heap: Global, input: &[u8]) -> Result<Vec<u8>, AllocError>
    ensures { IfOk result (λ v. v.items ≡ sheetopen_text input.now) }
{
    match read_opening(input) {
        Ok(opening) => open_named(heap, opening),
        Err(line) => bad_line(heap, line),
    }
}
