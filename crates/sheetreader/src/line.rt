// Lines of digits, read one after another from the front of a text.
ghost use Rattle.std.specs.Prelude.{◌≡◌, ◌+◌, ◌^◌, ◌<◌, ◌≤◌, length, take, drop, Some, None, IfOk, MatchResult};
ghost use Rattle.std.specs.List.{prefix_len};
ghost use Rattle.digits.specs.Hex.{is_digit};
ghost use Rattle.sheetlines.specs.Lines.{fault_in};

use digits::digit_value;
use sheetlines::fault::{LineFault, Place};

const LINE_FEED: u8 = b'\n';

// How many digits a text begins with, as far as `most` of them.
fn digits_in_front(text: &[u8], most: usize) -> usize
    ensures { result ≡ prefix_len is_digit (take most text.now) }
{
    text.iter()
        .take(most)
        .take_while(|byte| digit_value(**byte as char).is_some())
        .count()
}

// A text whose first lines were read.
#[derive(Drop)]
pub(crate) struct Lines<'a> {
    // what follows them
    pub(crate) rest: &'a [u8],
    // the number of the line that begins there
    pub(crate) line: usize,
}

impl Lines<'_> {
    // Reads the next line, which should have `count` digits, or tells its first fault.
    pub(crate) fn read(&mut self, count: usize) -> Result<(), LineFault>
        requires small { count ≤ 8192 }
        requires numbered { self.old.line < 2 ^ 32 }
        ensures fault { MatchResult result
            (λ _. fault_in self.old.line 1 count self.old.rest.now ≡ None)
            (λ e. fault_in self.old.line 1 count self.old.rest.now ≡ Some e) }
        ensures rest { IfOk result (λ _. self.new.rest.now ≡ drop (count + 1) self.old.rest.now) }
        ensures within { IfOk result (λ _. count + 1 ≤ length self.old.rest.now) }
        ensures line { IfOk result (λ _. self.new.line ≡ self.old.line + 1) }
    {
        let digits = digits_in_front(self.rest, count);
        let here = Place {
            line: self.line,
            column: digits + 1,
        };
        let Some(&byte) = self.rest.get(digits) else {
            return Err(LineFault::WrongEnd(here));
        };
        if byte != LINE_FEED && digits < count {
            return Err(LineFault::NoDigit(here));
        }
        if byte != LINE_FEED || digits < count {
            return Err(LineFault::WrongEnd(here));
        }
        self.rest = &self.rest[count + 1..];
        self.line += 1;
        Ok(())
    }
}
