ghost use Rattle.std.specs.Prelude.{◌≡◌, Some};
ghost use Rattle.std.specs.Result.{result_ok};
ghost use Rattle.refusals.specs.Answers.{answered};
ghost use Rattle.ciphers.specs.Keys.{key_told, made_answer, meant};
ghost use Rattle.cipherlines.specs.Chosen.{name_of, word_of, key_bytes, standard_of, chosen_image};
ghost use Rattle.cipherlines.specs.Permutes.{image-block, image-apart};

use aes::Aes128;
use ciphers::cipher::Permutation;
use ciphers::fault::KeyFault;
use ciphers::generic::under_key;
use ciphers::practice::Practice;
use speck::Speck128_256;
use std::fmt;
use std::str::FromStr;

// The bytes of `practice`; no other name has more.
const LONGEST_NAME: usize = 8;

// The ciphers that have a name.
#[derive(Clone, Copy, Debug, PartialEq, Eq)]
pub enum Name {
    Practice,
    Aes,
    Speck,
}

// A text that names no cipher.
#[derive(Clone, Copy, Debug, PartialEq, Eq)]
pub struct UnknownName;

// A cipher of any of these names. It holds a key, so it derives neither printing nor comparison. Each is a type of its own, so the
// calls below have an arm for each.
#[derive(Clone, Copy)]
pub enum Chosen {
    Practice(Practice),
    Aes(Aes128),
    Speck(Speck128_256),
}

// The cipher that a text names, if any.
impl FromStr for Name {
    type Err = UnknownName;

    ghost from_str_gives = { λ cs r. result_ok r ≡ name_of cs };

    fn from_str(text: &str) -> Result<Name, UnknownName> {
        match text {
            "practice" => Ok(Name::Practice),
            "aes" => Ok(Name::Aes),
            "speck" => Ok(Name::Speck),
            _ => Err(UnknownName),
        }
    }
}

// The same, of a text in bytes.
impl TryFrom<&[u8]> for Name {
    type Error = UnknownName;

    ghost try_from_gives = { λ t r. result_ok r ≡ name_of t.now };

    fn try_from(text: &[u8]) -> Result<Name, UnknownName> {
        // a longer text is refused before it is read, however long it is
        if text.len() > LONGEST_NAME {
            return Err(UnknownName);
        }
        str::from_utf8(text).map_err(|_| UnknownName)?.parse()
    }
}

impl fmt::Display for Name {
    ghost output = { λ n. Some (word_of n) };

    fn fmt<W: fmt::Write>(&self, f: &mut fmt::Formatter<W>) -> fmt::Result {
        f.write_str(self.word())
    }
}

impl Name {
    // The text that names the cipher.
    pub fn word(self) -> &'static str
        ensures text { result.now ≡ word_of self }
        ensures read { name_of result.now ≡ Some self }
    {
        match self {
            Name::Practice => "practice",
            Name::Aes => "aes",
            Name::Speck => "speck",
        }
    }

    // The named cipher under a key; a key of another length than the cipher's is refused as 7.
    pub fn under_key(self, key: &[u8]) -> Result<Chosen, KeyFault>
        ensures { answered key_told (meant chosen_image result) ≡ made_answer (key_bytes self) (standard_of self) key.now }
    {
        match self {
            Name::Practice => under_key::<Practice>(key).map(Chosen::Practice),
            Name::Aes => under_key::<Aes128>(key).map(Chosen::Aes),
            Name::Speck => under_key::<Speck128_256>(key).map(Chosen::Speck),
        }
    }
}

impl Permutation for Chosen {
    ghost image = { chosen_image };

    fn image_of(&self, block: u128) -> u128 {
        match self {
            Chosen::Practice(cipher) => cipher.image_of(block),
            Chosen::Aes(cipher) => cipher.image_of(block),
            Chosen::Speck(cipher) => cipher.image_of(block),
        }
    }

    ghost block = { image-block };

    ghost apart = { image-apart };
}
