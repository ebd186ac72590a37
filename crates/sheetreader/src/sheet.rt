// The lines of a sheet, from line 1 to the text's end.
ghost use Rattle.std.specs.Prelude.{◌≡◌, ◌≤◌, length, drop, Some, None, IfOk, MatchResult};
ghost use Rattle.blocks.specs.Blocks.{number};
ghost use Rattle.sheetlines.specs.Lines.{lines_fault, lines_size};
ghost use Rattle.sheetlines.specs.Sheets.{first_digits, fields_of, field_fault, widths, sheet_answer};

use crate::line::Lines;
use digits::codec::decode;
use method::limits::{HEADER_LIMIT, MESSAGE_LIMIT, NONCE_END, is_tag_length};
use sheetlines::fault::{Field, LineFault, SheetFault};
use sheetlines::fields::Fields;
use sheetlines::frames::Frames;
use sheetlines::layout::{FIRST_BYTES, FIRST_DIGITS};

// The number that bytes are, the first the highest.
// One loop for four widths; `from_be_bytes` would want an array of each.
fn number(bytes: &[u8]) -> u64
    requires { length bytes.now ≤ 8 }
    ensures { result ≡ number bytes.now }
{
    let mut sum: u64 = 0;
    for byte in bytes {
        sum = sum * 256 + u64::from(*byte);
    }
    sum
}

// What line 1 tells; its digits were read before.
fn read_fields(text: &[u8]) -> Fields
    requires { first_digits ≤ length text.now }
    ensures { result ≡ fields_of text.now }
{
    let mut bytes = [0; FIRST_BYTES];
    decode(&text[..FIRST_DIGITS], &mut bytes);
    Fields {
        nonce: number(&bytes[..8]),
        message_len: number(&bytes[8..12]) as usize,
        header_len: number(&bytes[12..14]) as usize,
        tag_len: number(&bytes[14..]) as usize,
    }
}

// Tests that each field is in its range; the first that is not is the fault.
// Not `Sheet::within_limits`: lines are judged in another order, and before there is a sheet.
fn in_range(fields: Fields) -> Result<(), Field>
    ensures { MatchResult result (λ _. field_fault fields ≡ None) (λ f. field_fault fields ≡ Some f) }
{
    if fields.nonce >= NONCE_END {
        return Err(Field::Nonce);
    }
    if fields.message_len > MESSAGE_LIMIT {
        return Err(Field::MessageLength);
    }
    if fields.header_len > HEADER_LIMIT {
        return Err(Field::HeaderLength);
    }
    if !is_tag_length(fields.tag_len) {
        return Err(Field::TagLength);
    }
    Ok(())
}

// Reads the lines after the first, or tells their first fault.
fn read_rest(lines: &mut Lines<'_>, fields: Fields) -> Result<(), LineFault>
    requires second { lines.old.line ≡ 2 }
    requires in_range { field_fault fields ≡ None }
    ensures fault { MatchResult result
        (λ _. lines_fault 2 (widths fields) lines.old.rest.now ≡ None)
        (λ e. lines_fault 2 (widths fields) lines.old.rest.now ≡ Some e) }
    ensures rest { IfOk result (λ _. lines.new.rest.now ≡ drop (lines_size (widths fields)) lines.old.rest.now) }
{
    lines.read(2 * fields.header_len)?;
    for width in Frames::of(fields.message_len) {
        lines.read(2 * width)?;
    }
    lines.read(2 * fields.tag_len)
}

// Reads a text as the lines of a sheet: what line 1 tells, or the text's first fault. Line 1 is judged before any other line is
// read, every line must have just the digits that line 1 asks for, and no byte may follow the last. Nothing is stored.
pub fn read_sheet(text: &[u8]) -> Result<Fields, SheetFault>
    ensures answer { result ≡ sheet_answer text.now }
{
    let mut lines = Lines {
        rest: text,
        line: 1,
    };
    lines.read(FIRST_DIGITS)?;
    let fields = read_fields(text);
    if let Err(field) = in_range(fields) {
        return Err(SheetFault::OutOfRange(field));
    }
    read_rest(&mut lines, fields)?;
    if !lines.rest.is_empty() {
        return Err(SheetFault::MoreBytes);
    }
    Ok(fields)
}
