ghost use Rattle.std.specs.Prelude.{◌≡◌, ◌*◌, ◌^◌, ◌<◌, IfSome, if◌then◌else◌, Some, None, MatchOption};
ghost use Rattle.digits.specs.Digits.{digits_bytes, number_of};
ghost use Rattle.digits.specs.Hex.{unhex};
ghost use Rattle.cipherlines.specs.Chosen.{name_of};
ghost use Rattle.inputlines.specs.Lines.{parted_line, line_as};

use cipherlines::chosen::Name;
use digits::digit_value;

// What stands before the first line feed of a text, and what stands behind it; `None` where it has no line feed.
// `words::parts` does this of text; these are bytes, which may be no text.
pub fn next_line(text: &[u8]) -> Option<(&[u8], &[u8])>
    ensures { MatchOption result (parted_line text.now ≡ None)
        (λ p. parted_line text.now ≡ Some (p.0.now, p.1.now)) }
{
    let end = text.iter().position(|c| *c == b'\n')?;
    Some((&text[..end], &text[end + 1..]))
}

// Whether a text is bytes: digits, and an even number of them.
pub fn are_bytes(text: &[u8]) -> bool
    ensures { digits_bytes text.now ≡ (if result then Some (unhex text.now) else None) }
{
    text.len() % 2 == 0 && text.iter().all(|c| digit_value(*c as char).is_some())
}

// The three calls below read a line in one shape; one call over a closure would need a contract by what the closure gives, and be no shorter.

// The cipher that the first line names, and what stands behind the line; `None` where there is no such line.
pub fn name_line(text: &[u8]) -> Option<(Name, &[u8])>
    ensures { MatchOption result (line_as name_of text.now ≡ None)
        (λ p. line_as name_of text.now ≡ Some (p.0, p.1.now)) }
{
    let (line, rest) = next_line(text)?;
    let name = Name::try_from(line).ok()?;
    Some((name, rest))
}

// The first line, where it is bytes, still in digits, and what stands behind it; `None` where there is no such line.
pub fn bytes_line(text: &[u8]) -> Option<(&[u8], &[u8])>
    ensures { MatchOption result (line_as digits_bytes text.now ≡ None)
        (λ p. line_as digits_bytes text.now ≡ Some (unhex p.0.now, p.1.now)) }
{
    next_line(text).filter(|(line, _)| are_bytes(line))
}

// The number that a first line of just `count` digits is, and what stands behind the line; `None` where there is no such line.
pub fn number_line(text: &[u8], count: usize) -> Option<(u128, &[u8])>
    ensures value { MatchOption result (line_as (number_of count) text.now ≡ None)
        (λ p. line_as (number_of count) text.now ≡ Some (p.0, p.1.now)) }
    ensures bound { IfSome result (λ p. p.0 < 2 ^ (4 * count)) }
{
    let (line, rest) = next_line(text)?;
    let number = digits::number(line, count)?;
    Some((number, rest))
}
