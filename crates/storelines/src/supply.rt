ghost use Rattle.std.specs.Prelude.{◌≡◌};
ghost use Rattle.storelines.specs.Orders.{supply_of};

use stores::supply::Supply;
use words::parts;

const POWER_DIGITS: usize = 8;

const LEFTOVER_DIGITS: usize = 2;

// Power in 8 digits, a space, leftover in 2 digits; `None` for any other text.
// A function: neither a method nor a trait of the library can be given to a type of `stores` here.
pub fn from_text(text: &str) -> Option<Supply>
    ensures { result ≡ supply_of text.now }
{
    let (power, leftover) = parts(text)?;
    Some(Supply {
        power: digits::number(power.as_bytes(), POWER_DIGITS)? as u32,
        leftover: digits::number(leftover.as_bytes(), LEFTOVER_DIGITS)? as u8,
    })
}
