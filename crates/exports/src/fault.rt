// Why a call did not come to its cipher.
ghost use Rattle.std.specs.Prelude.{◌≡◌};
ghost use Rattle.refusals.specs.Answers.{answered};
ghost use Rattle.exports.specs.Sheets.{number_of};
ghost use Rattle.exports.specs.Calls.{call_told};
ghost use Rattle.exports.specs.declared.fault.CallFault.TheVariants.{Key};

use ciphers::fault::KeyFault;
use refusals::Refusal;

#[derive(Clone, Copy, Debug, PartialEq, Eq)]
pub(crate) enum CallFault {
    // no cipher has the number
    NoCipher,
    Key(KeyFault),
}

// by hand, since a derived `From` has no contract, and clauses name the fault
impl From<KeyFault> for CallFault {
    ghost from_gives = { λ e r. r ≡ Key e };

    fn from(e: KeyFault) -> CallFault {
        CallFault::Key(e)
    }
}

impl Refusal for CallFault {
    ghost told = { call_told };

    fn number(&self) -> u8 {
        match self {
            CallFault::NoCipher => BAD_CALL,
            CallFault::Key(fault) => fault.number(),
        }
    }
}

// What is answered where no cipher has the number, or where a buffer has another length than it should.
pub(crate) const BAD_CALL: u8 = 255;

// 0 where a call was accepted, and else the refusal's number.
// C takes numbers: here, and at the end of each call, a Result becomes one.
pub(crate) fn status<T: Drop, R: Refusal + Drop>(made: Result<T, R>) -> u8
    ensures { result ≡ number_of (answered R.told made) }
{
    match made {
        Ok(_) => 0,
        Err(fault) => fault.number(),
    }
}
