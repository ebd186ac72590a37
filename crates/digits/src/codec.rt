// Bytes as two digits each, and back.
ghost use Rattle.std.specs.Prelude.{◌≡◌, ◌+◌, ◌*◌, ◌/◌, ◌%◌, ◌<◌, [], ◌∷◌, length, slice_index};
ghost use Rattle.digits.specs.Hex.{digit, value, decoded};

use crate::digit_value;

// The digit of a value below 16.
fn digit_of(value: u8) -> u8
    requires { value < 16 }
    ensures { result ≡ digit value }
{
    if value < 10 {
        b'0' + value
    } else {
        b'a' + (value - 10)
    }
}

// The two digits of a byte.
pub fn digits_of(byte: u8) -> [u8; 2]
    ensures { result ≡ digit (byte / 16) ∷ digit (byte % 16) ∷ [] }
{
    [digit_of(byte / 16), digit_of(byte % 16)]
}

// The byte that two characters are; one that is no digit counts as 0. Not `byte_of`: there one such character leaves no byte,
// and here the other digit still counts.
fn byte_at(pair: &[u8; 2]) -> u8
    ensures { result ≡ 16 * value (slice_index pair.now 0) + value (slice_index pair.now 1) }
{
    let [high, low] = *pair;
    let high = digit_value(high as char).unwrap_or(0);
    let low = digit_value(low as char).unwrap_or(0);
    high * 16 + low
}

// Fills the front of a buffer with the bytes that digits are, as far as both reach; the rest of it stays. It judges nothing: a
// character that is no digit counts as 0.
pub fn decode(text: &[u8], out: &mut [u8])
    ensures { out.new ≡ decoded text.now out.old }
{
    let (pairs, _) = text.as_chunks::<2>();
    let count = out.len().min(pairs.len());
    // No `zip` of `iter_mut`: the library says nothing of the values that are written through one. And no turn that may leave the
    // loop: the compiler then takes one pair at a time.
    for (i, pair) in pairs[..count].iter().enumerate() {
        out[i] = byte_at(pair);
    }
}
