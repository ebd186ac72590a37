// The key expansion: eleven round keys from one key.
ghost use Rattle.std.specs.Prelude.{◌≡◌};
ghost use Rattle.aes.specs.Cipher.{aes_128, turned, next_round_key};
ghost use Rattle.aes.specs.Keyed.{keys_image};

use crate::state::{add_column, from_block};
use crate::{Columns, RoundKey};
use bytefield::substitute;

// The powers of x in the field of bytes, one for each round key after the first.
const ROUND_CONSTANTS: [u8; 10] = [0x01, 0x02, 0x04, 0x08, 0x10, 0x20, 0x40, 0x80, 0x1b, 0x36];

// A column moved up by one place, substituted, and a constant added that differs from round to round.
fn turn(constant: u8, a: [u8; 4]) -> [u8; 4]
    ensures { result ≡ turned constant a }
{
    [
        substitute(a[1]) ^ constant,
        substitute(a[2]),
        substitute(a[3]),
        substitute(a[0]),
    ]
}

// The first column takes the last one turned, and each other column the one before it.
fn next_round_key(constant: u8, k: Columns) -> Columns
    ensures { result ≡ next_round_key constant k }
{
    let a = add_column(k[0], turn(constant, k[3]));
    let b = add_column(k[1], a);
    let c = add_column(k[2], b);
    let d = add_column(k[3], c);
    [a, b, c, d]
}

// The round keys of a key, of which the first is the key itself: with them a block has the image that the standard gives it.
pub(crate) fn expand(key: [u8; 16]) -> [RoundKey; 11]
    ensures { keys_image result ≡ aes_128 key }
{
    let mut k = RoundKey {
        columns: from_block(key),
    };
    let mut keys = [k; 11];
    for (i, constant) in ROUND_CONSTANTS.iter().enumerate() {
        let columns = next_round_key(*constant, k.columns);
        k = RoundKey { columns };
        // by index: a proof knows nothing of what is written through a zip
        keys[i + 1] = k;
    }
    keys
}
