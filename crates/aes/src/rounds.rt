// The rounds, one with each round key.
ghost use Rattle.std.specs.Prelude.{◌≡◌};
ghost use Rattle.aes.specs.Cipher.{round as round_of, final_round, cipher};
ghost use Rattle.aes.specs.Keyed.{held};

use crate::state::{add_round_key, mix_columns, shift_rows, sub_bytes};
use crate::{Columns, RoundKey};

fn round(k: Columns, s: Columns) -> Columns
    ensures { result ≡ round_of k s }
{
    add_round_key(k, mix_columns(shift_rows(sub_bytes(s))))
}

// The last round mixes no columns.
fn final_round(k: Columns, s: Columns) -> Columns
    ensures { result ≡ final_round k s }
{
    add_round_key(k, shift_rows(sub_bytes(s)))
}

// A state enciphered with eleven round keys.
pub(crate) fn encipher(keys: &[RoundKey; 11], s: Columns) -> Columns
    ensures { result ≡ cipher (held keys.now) s }
{
    let mut t = add_round_key(keys[0].columns, s);
    for key in &keys[1..10] {
        // `t = round(..)` alone is not covered by the borrow checker
        let next = round(key.columns, t);
        t = next;
    }
    final_round(keys[10].columns, t)
}
