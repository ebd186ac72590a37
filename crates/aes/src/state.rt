// The state as four columns of four bytes, and the four transformations of a round.
// written out place by place, as the standard has it
ghost use Rattle.std.specs.Prelude.{◌≡◌, ◌+◌, ◌%◌, [], ◌∷◌, bit_xor, slice_index};
ghost use Rattle.bytefield.specs.Substitution.{substitution};
ghost use Rattle.aes.specs.State.{column_of, input, output, sub_bytes, shift_rows, mixed, mix_columns, add_round_key};
ghost use Rattle.aes.specs.Cipher.{add_column};

use crate::Columns;
use bytefield::{substitute, times_x};

// The state that a block's bytes are, column by column.
pub(crate) fn from_block(b: [u8; 16]) -> Columns
    ensures { result ≡ input b }
{
    [
        [b[0], b[1], b[2], b[3]],
        [b[4], b[5], b[6], b[7]],
        [b[8], b[9], b[10], b[11]],
        [b[12], b[13], b[14], b[15]],
    ]
}

// The block's bytes that a state is.
pub(crate) fn to_block(s: Columns) -> [u8; 16]
    ensures { result ≡ output s }
{
    let [a, b, c, d] = s;
    [
        a[0], a[1], a[2], a[3], b[0], b[1], b[2], b[3], c[0], c[1], c[2], c[3], d[0], d[1], d[2],
        d[3],
    ]
}

fn sub_column(a: [u8; 4]) -> [u8; 4]
    ensures { result ≡ column_of (λ i. substitution (slice_index a i)) }
{
    [
        substitute(a[0]),
        substitute(a[1]),
        substitute(a[2]),
        substitute(a[3]),
    ]
}

// Each byte substituted.
pub(crate) fn sub_bytes(s: Columns) -> Columns
    ensures { result ≡ sub_bytes s }
{
    [
        sub_column(s[0]),
        sub_column(s[1]),
        sub_column(s[2]),
        sub_column(s[3]),
    ]
}

// A column after the shift, from the four columns that begin where it stands: row r comes from the r-th of them.
fn diagonal(a: [u8; 4], b: [u8; 4], c: [u8; 4], d: [u8; 4]) -> [u8; 4]
    ensures { result ≡ slice_index a 0 ∷ slice_index b 1 ∷ slice_index c 2 ∷ slice_index d 3 ∷ [] }
{
    [a[0], b[1], c[2], d[3]]
}

// Row r moved by r columns to the left, round and round.
pub(crate) fn shift_rows(s: Columns) -> Columns
    ensures { result ≡ shift_rows s }
{
    [
        diagonal(s[0], s[1], s[2], s[3]),
        diagonal(s[1], s[2], s[3], s[0]),
        diagonal(s[2], s[3], s[0], s[1]),
        diagonal(s[3], s[0], s[1], s[2]),
    ]
}

// 2 a + 3 b + c + d in the field.
fn mix(a: u8, b: u8, c: u8, d: u8) -> u8
    ensures { result ≡ mixed a b c d }
{
    times_x(a) ^ (times_x(b) ^ b) ^ (c ^ d)
}

fn mix_column(a: [u8; 4]) -> [u8; 4]
    ensures { result ≡ column_of (λ i. mixed (slice_index a i) (slice_index a ((i + 1) % 4)) (slice_index a ((i + 2) % 4)) (slice_index a ((i + 3) % 4))) }
{
    [
        mix(a[0], a[1], a[2], a[3]),
        mix(a[1], a[2], a[3], a[0]),
        mix(a[2], a[3], a[0], a[1]),
        mix(a[3], a[0], a[1], a[2]),
    ]
}

// Each column mixed.
pub(crate) fn mix_columns(s: Columns) -> Columns
    ensures { result ≡ mix_columns s }
{
    [
        mix_column(s[0]),
        mix_column(s[1]),
        mix_column(s[2]),
        mix_column(s[3]),
    ]
}

// The sum of two columns. It is told as the key expansion has it, and as a round has it, whose definition takes any
// numbers for a round key.
pub(crate) fn add_column(a: [u8; 4], b: [u8; 4]) -> [u8; 4]
    ensures sum { result ≡ add_column a b }
    ensures bytes { result ≡ column_of (λ i. bit_xor (slice_index a i) (slice_index b i % 256)) }
{
    [a[0] ^ b[0], a[1] ^ b[1], a[2] ^ b[2], a[3] ^ b[3]]
}

// The round key added.
pub(crate) fn add_round_key(k: Columns, s: Columns) -> Columns
    ensures { result ≡ add_round_key k s }
{
    [
        add_column(s[0], k[0]),
        add_column(s[1], k[1]),
        add_column(s[2], k[2]),
        add_column(s[3], k[3]),
    ]
}
