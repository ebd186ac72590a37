ghost use Rattle.std.specs.Prelude.{◌≡◌};
ghost use Rattle.sheetlines.specs.Faults.{line_told, fault_place, field_number, sheet_told};
ghost use Rattle.sheetlines.specs.declared.fault.SheetFault.TheVariants.{InLine};

use refusals::Refusal;

// Where a fault lies: the line, and the byte of that line, both from 1.
#[derive(Clone, Copy, Debug, PartialEq, Eq)]
pub struct Place {
    pub line: usize,
    pub column: usize,
}

// Why a line could not be read.
#[derive(Clone, Copy, Debug, PartialEq, Eq)]
pub enum LineFault {
    // a byte stands in a digit's place that is none
    NoDigit(Place),
    // the line ends early or late, or the text ends in it
    WrongEnd(Place),
}

// The fields of line 1, by their places in it.
#[derive(Clone, Copy, Debug, PartialEq, Eq)]
pub enum Field {
    Nonce = 1,
    MessageLength = 2,
    HeaderLength = 3,
    TagLength = 4,
}

// Why a text is not the lines of a sheet.
#[derive(Clone, Copy, Debug, PartialEq, Eq)]
pub enum SheetFault {
    InLine(LineFault),
    // a field of line 1 is outside its range
    OutOfRange(Field),
    // bytes follow the last line
    MoreBytes,
}

impl Refusal for LineFault {
    ghost told = { line_told };

    fn number(&self) -> u8 {
        match self {
            // a variant that holds a value has no number of its own, so the arms say them
            LineFault::NoDigit(_) => 11,
            LineFault::WrongEnd(_) => 12,
        }
    }
}

impl LineFault {
    // Where the fault lies.
    pub fn place(&self) -> Place
        ensures { result ≡ fault_place self.now }
    {
        match self {
            LineFault::NoDigit(place) | LineFault::WrongEnd(place) => *place,
        }
    }
}

impl Field {
    // The place of a field in line 1, from 1.
    pub fn place(self) -> u8
        ensures { result ≡ field_number self }
    {
        self as u8
    }
}

// by hand, since a derived `From` has no contract, and clauses name the fault
impl From<LineFault> for SheetFault {
    ghost from_gives = { λ e r. r ≡ InLine e };

    fn from(e: LineFault) -> SheetFault {
        SheetFault::InLine(e)
    }
}

impl Refusal for SheetFault {
    ghost told = { sheet_told };

    fn number(&self) -> u8 {
        match self {
            // a variant that holds a value has no number of its own, so the arms say them
            SheetFault::InLine(fault) => fault.number(),
            SheetFault::OutOfRange(_) => 13,
            SheetFault::MoreBytes => 14,
        }
    }
}
