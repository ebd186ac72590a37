// A block of 128 bits as it is printed.
ghost use Rattle.std.specs.Prelude.{◌≡◌, Some};
ghost use Rattle.std.specs.List.{flat_map};
ghost use Rattle.digits.specs.Hex.{block_text};

use crate::codec::digits_of;
use std::fmt;

// The two digits of each byte of a block.
fn pairs_of(block: u128) -> [[u8; 2]; 16]
    ensures { flat_map (λ p. p) result ≡ block_text block }
{
    blocks::to_bytes(block).map(digits_of)
}

// A block, printed as its 32 digits, leading zeros too.
// No `{:032x}`: the library states the text of a number in digits up to 64 bits alone.
#[derive(Clone, Copy, Debug, PartialEq, Eq)]
pub struct BlockDigits(pub u128);

impl fmt::Display for BlockDigits {
    ghost output = { λ b. Some (block_text b.0) };

    fn fmt<W: fmt::Write>(&self, f: &mut fmt::Formatter<W>) -> fmt::Result {
        let pairs = pairs_of(self.0);
        f.write_str(str::from_utf8(pairs.as_flattened()).unwrap())
    }
}
