// Numbers and bytes in digits: 0 to 9 and a to f, the first the highest, two a byte.
#![tactic(auto)]

ghost use Rattle.std.specs.Prelude.{◌≡◌, ◌*◌, ◌^◌, ◌<◌, IfSome, IfOk, vec_items};
ghost use Rattle.digits.specs.Digits.{value_of, then_digit, number_of, digits_bytes};
ghost use Rattle.std.specs.Option.{option_map};

use std::alloc::{AllocError, Global};

pub mod block;
pub mod codec;

const MOST_DIGITS: usize = 32;

// The value of a digit; `None` for any other character, an upper-case letter too.
// By hand: `to_digit` takes upper-case letters, and `from_str_radix` a sign.
pub fn digit_value(c: char) -> Option<u8>
    ensures { result ≡ value_of c }
{
    match c {
        '0'..='9' => Some(c as u8 - b'0'),
        'a'..='f' => Some(c as u8 - b'a' + 10),
        _ => None,
    }
}

// The number that a text of just `count` digits is; `None` for any other text, and where `count` is above 32.
pub fn number(text: &[u8], count: usize) -> Option<u128>
    ensures value { result ≡ number_of count text.now }
    ensures bound { IfSome result (λ n. n < 2 ^ (4 * count)) }
{
    if text.len() != count || count > MOST_DIGITS {
        return None;
    }
    let mut sum: u128 = 0;
    for c in text {
        let value = digit_value(*c as char)?;
        sum = sum * 16 + u128::from(value);
    }
    Some(sum)
}

// The bytes that a text of digits is; `None` where it has another character or an odd number of digits.
pub fn bytes(heap: Global, text: &[u8]) -> Result<Option<Vec<u8>>, AllocError>
    ensures { IfOk result (λ o. option_map vec_items o ≡ digits_bytes text.now) }
{
    let (pairs, odd) = text.as_chunks::<2>();
    if !odd.is_empty() {
        return Ok(None);
    }
    let mut out = Vec::new(heap);
    for [high, low] in pairs {
        let Some(byte) = byte_of(*high as char, *low as char) else {
            return Ok(None);
        };
        out.push(byte)?;
    }
    Ok(Some(out))
}

// The byte that two digits are.
fn byte_of(high: char, low: char) -> Option<u8>
    ensures { result ≡ then_digit (value_of high) (value_of low) }
{
    let high = digit_value(high)?;
    let low = digit_value(low)?;
    Some(high * 16 + low)
}
