ghost use Rattle.ciphers.specs.Keys.{key_told};

use refusals::Refusal;

// Why a cipher was not made.
#[derive(Clone, Copy, Debug, PartialEq, Eq)]
pub enum KeyFault {
    // the key has not the length that its cipher states
    WrongLength = 7,
}

impl Refusal for KeyFault {
    ghost told = { key_told };

    fn number(&self) -> u8 {
        *self as u8
    }
}
