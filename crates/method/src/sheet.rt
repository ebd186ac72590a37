ghost use Rattle.std.specs.Prelude.{◌≡◌, length};
ghost use Rattle.refusals.specs.Answers.{answered};
ghost use Rattle.method.specs.Limits.{limit_told};
ghost use Rattle.method.specs.Sheets.{limits_answer};

use crate::limits::{HEADER_LIMIT, LimitFault, MESSAGE_LIMIT, NONCE_END, is_tag_length};

// What a sheet is once it is sealed. It may be any bytes: whoever takes one tests its limits, and check its tag. The ciphertext has
// a lifetime of its own, since a checked sheet goes on borrowing it, and not the rest.
// It has no ==, which would stop at the first byte of a tag that differs.
#[derive(Clone, Copy)]
pub struct Sheet<'s, 'c> {
    pub nonce: u64,
    pub header: &'s [u8],
    pub ciphertext: &'c [u8],
    pub tag: &'s [u8],
}

impl Sheet<'_, '_> {
    // Tests the tag's length, the nonce, and the lengths of header and message, in this order.
    pub fn within_limits(&self) -> Result<(), LimitFault>
        ensures { answered limit_told result ≡ limits_answer self.now.nonce
            (length self.now.header.now) (length self.now.ciphertext.now) (length self.now.tag.now) }
    {
        if !is_tag_length(self.tag.len()) {
            return Err(LimitFault::TagLength);
        }
        if self.nonce >= NONCE_END {
            return Err(LimitFault::Nonce);
        }
        if self.header.len() > HEADER_LIMIT {
            return Err(LimitFault::HeaderTooLong);
        }
        if self.ciphertext.len() > MESSAGE_LIMIT {
            return Err(LimitFault::MessageTooLong);
        }
        Ok(())
    }
}
