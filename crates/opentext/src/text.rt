// Lines of output.
ghost use Rattle.std.specs.Prelude.{◌≡◌, [], ◌∷◌, ◌++◌, IfOk, codes, OnOk};
ghost use Rattle.checks.specs.Checks.{check_told};
ghost use Rattle.ciphers.specs.Keys.{key_told};
ghost use Rattle.inputlines.specs.Faults.{line_number};
ghost use Rattle.sheetlines.specs.Faults.{line_told, sheet_told};
ghost use Rattle.sheetlines.specs.Lines.{line_of};
ghost use Rattle.sheetlines.specs.declared.fault.SheetFault.TheVariants.{OutOfRange};
ghost use Rattle.sheetopener.specs.Opens.{open_told};
ghost use Rattle.sheetopener.specs.declared.fault.OpenFault.TheVariants.{BufferTooSmall};
ghost use Rattle.opentext.specs.Texts.{told_line, refused_text};

use checks::fault::CheckFault;
use ciphers::fault::KeyFault;
use digits::codec::digits_of;
use inputlines::fault::BadLine;
use refusals::Refusal;
use sheetlines::fault::{Field, LineFault, Place, SheetFault};
use sheetopener::fault::{Buffer, OpenFault};
use std::alloc::{AllocError, Global};

// Appends bytes as a line of digits.
fn push_line(out: &mut Vec<u8>, bytes: &[u8]) -> Result<(), AllocError>
    ensures { OnOk result (out.new.items ≡ out.old.items ++ line_of bytes.now) }
{
    for byte in bytes {
        out.extend_from_slice(&digits_of(*byte))?;
    }
    out.push(b'\n')?;
    Ok(())
}

// Header and message, a line each.
pub(crate) fn sheet_lines(
    heap: Global,
    header: &[u8],
    message: &[u8],
) -> Result<Vec<u8>, AllocError>
    ensures { IfOk result (λ v. v.items ≡ line_of header.now ++ line_of message.now) }
{
    let mut out = Vec::new(heap);
    push_line(&mut out, header)?;
    push_line(&mut out, message)?;
    Ok(out)
}

// The line that tells the number of a bad line.
pub(crate) fn bad_line(heap: Global, line: BadLine) -> Result<Vec<u8>, AllocError>
    ensures { IfOk result (λ v. v.items ≡ told_line (codes "bad line ") (line_number line) []) }
{
    let line = line.number();
    Ok(format!(in heap; "bad line {line}\n")?.into_bytes())
}

// The line that tells a refusal: its number, and what else it tells.
// No Display of the faults: this program alone tells their values, the others tell the number. What
// is printed of a refusal is a number, so this takes one.
fn refused_with(heap: Global, number: u8, values: &str) -> Result<Vec<u8>, AllocError>
    ensures { IfOk result (λ v. v.items ≡ told_line (codes "refused ") number values.now) }
{
    Ok(format!(in heap; "refused {number}{values}\n")?.into_bytes())
}

fn refused_in_line(heap: Global, fault: LineFault) -> Result<Vec<u8>, AllocError>
    ensures { IfOk result (λ v. v.items ≡ refused_text (line_told fault)) }
{
    let Place { line, column } = fault.place();
    let values = format!(in heap; " line {line} column {column} layer line")?;
    refused_with(heap, fault.number(), &values)
}

fn refused_field(heap: Global, field: Field) -> Result<Vec<u8>, AllocError>
    ensures { IfOk result (λ v. v.items ≡ refused_text (sheet_told (OutOfRange field))) }
{
    let place = field.place();
    let values = format!(in heap; " field {place} layer sheet")?;
    refused_with(heap, SheetFault::OutOfRange(field).number(), &values)
}

fn refused_sheet(heap: Global, fault: SheetFault) -> Result<Vec<u8>, AllocError>
    ensures { IfOk result (λ v. v.items ≡ refused_text (sheet_told fault)) }
{
    match fault {
        SheetFault::InLine(fault) => refused_in_line(heap, fault),
        SheetFault::OutOfRange(field) => refused_field(heap, field),
        SheetFault::MoreBytes => refused_with(heap, fault.number(), " layer sheet"),
    }
}

fn refused_buffer(heap: Global, buffer: Buffer) -> Result<Vec<u8>, AllocError>
    ensures { IfOk result (λ v. v.items ≡ refused_text (open_told (BufferTooSmall buffer))) }
{
    let which = buffer as u8;
    let values = format!(in heap; " buffer {which}")?;
    refused_with(heap, OpenFault::BufferTooSmall(buffer).number(), &values)
}

fn refused_check(heap: Global, fault: CheckFault) -> Result<Vec<u8>, AllocError>
    ensures { IfOk result (λ v. v.items ≡ refused_text (check_told fault)) }
{
    match fault {
        CheckFault::TagDiffers => refused_with(heap, fault.number(), " layer seal"),
        _ => refused_with(heap, fault.number(), ""),
    }
}

// The line that tells that a key has not its cipher's length.
pub(crate) fn refused_key(heap: Global, fault: KeyFault) -> Result<Vec<u8>, AllocError>
    ensures { IfOk result (λ v. v.items ≡ refused_text (key_told fault)) }
{
    refused_with(heap, fault.number(), "")
}

// The line that tells why a sheet's lines were not opened.
pub(crate) fn refused_open(heap: Global, fault: OpenFault) -> Result<Vec<u8>, AllocError>
    ensures { IfOk result (λ v. v.items ≡ refused_text (open_told fault)) }
{
    match fault {
        OpenFault::InSheet(fault) => refused_sheet(heap, fault),
        OpenFault::BufferTooSmall(buffer) => refused_buffer(heap, buffer),
        OpenFault::InSeal(fault) => refused_check(heap, fault),
    }
}
