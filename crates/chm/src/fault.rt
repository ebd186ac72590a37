ghost use Rattle.std.specs.Prelude.{◌≡◌};
ghost use Rattle.chm.specs.Drafts.{head_told, body_told};
ghost use Rattle.chm.specs.Sealers.{begin_told};
ghost use Rattle.chm.specs.Seals.{seal_told};
ghost use Rattle.chm.specs.declared.fault.BeginFault.TheVariants.{Raise};
ghost use Rattle.chm.specs.declared.fault.SealFault.TheVariants.{Begin, Head, Body};

use refusals::Refusal;
use stores::fault::RaiseFault;

// Why a piece of header was not taken.
// Each call has the faults that it can give; `LimitFault`, of a whole sheet, shares their numbers.
#[derive(Clone, Copy, Debug, PartialEq, Eq)]
pub enum HeadFault {
    // the header would pass 4,096 bytes
    HeaderTooLong = 1,
}

// Why a piece of message was not taken.
#[derive(Clone, Copy, Debug, PartialEq, Eq)]
pub enum BodyFault {
    // the output has another length than the piece
    LengthsDiffer = 3,
    // the message would pass 1,048,576 bytes
    MessageTooLong = 2,
}

impl Refusal for HeadFault {
    ghost told = { head_told };

    fn number(&self) -> u8 {
        HeadFault::HeaderTooLong as u8
    }
}

impl Refusal for BodyFault {
    ghost told = { body_told };

    fn number(&self) -> u8 {
        *self as u8
    }
}

// Why no draft was handed out.
#[derive(Clone, Copy, Debug, PartialEq, Eq)]
pub enum BeginFault {
    // the tag's length is outside 12 to 16
    TagLength,
    // the sealer is down until it is restarted
    Down,
    // what the store's raise reported
    Raise(RaiseFault),
}

// these by hand, since a derived `From` has no contract, and clauses name the fault
impl From<RaiseFault> for BeginFault {
    ghost from_gives = { λ e r. r ≡ Raise e };

    fn from(e: RaiseFault) -> BeginFault {
        BeginFault::Raise(e)
    }
}

impl Refusal for BeginFault {
    ghost told = { begin_told };

    fn number(&self) -> u8 {
        match self {
            // a variant that holds a value has no number of its own, so the arms say them
            BeginFault::TagLength => 4,
            BeginFault::Down => 21,
            BeginFault::Raise(fault) => fault.number(),
        }
    }
}

// Why nothing was sealed in one call.
#[derive(Clone, Copy, Debug, PartialEq, Eq)]
pub enum SealFault {
    Begin(BeginFault),
    Head(HeadFault),
    Body(BodyFault),
}

// these by hand too
impl From<BeginFault> for SealFault {
    ghost from_gives = { λ e r. r ≡ Begin e };

    fn from(e: BeginFault) -> SealFault {
        SealFault::Begin(e)
    }
}

impl From<HeadFault> for SealFault {
    ghost from_gives = { λ e r. r ≡ Head e };

    fn from(e: HeadFault) -> SealFault {
        SealFault::Head(e)
    }
}

impl From<BodyFault> for SealFault {
    ghost from_gives = { λ e r. r ≡ Body e };

    fn from(e: BodyFault) -> SealFault {
        SealFault::Body(e)
    }
}

impl Refusal for SealFault {
    ghost told = { seal_told };

    fn number(&self) -> u8 {
        match self {
            SealFault::Begin(fault) => fault.number(),
            SealFault::Head(fault) => fault.number(),
            SealFault::Body(fault) => fault.number(),
        }
    }
}
