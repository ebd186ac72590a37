// The limits on what is sealed, named once; specs/Limits.antt has the same.
ghost use Rattle.std.specs.Prelude.{◌≡◌};
ghost use Rattle.method.specs.Limits.{tag_fits, limit_told};

use refusals::Refusal;

pub const HEADER_LIMIT: usize = 4096;

pub const MESSAGE_LIMIT: usize = 1048576;

// A tag has so many bytes at the least, and so many at the most.
pub const TAG_LEAST: usize = 12;

pub const TAG_MOST: usize = 16;

// A nonce has 63 bits.
pub const NONCE_END: u64 = 1 << 63;

// Which limit a sheet does not keep.
#[derive(Clone, Copy, Debug, PartialEq, Eq)]
pub enum LimitFault {
    // the header passes 4,096 bytes
    HeaderTooLong = 1,
    // the message passes 1,048,576 bytes
    MessageTooLong = 2,
    // the tag's length is outside 12 to 16
    TagLength = 4,
    // the nonce is 2^63 or more
    Nonce = 5,
}

impl Refusal for LimitFault {
    ghost told = { limit_told };

    fn number(&self) -> u8 {
        *self as u8
    }
}

// Whether a tag may have so many bytes.
pub fn is_tag_length(len: usize) -> bool
    ensures { result ≡ tag_fits len }
{
    (TAG_LEAST..=TAG_MOST).contains(&len)
}
