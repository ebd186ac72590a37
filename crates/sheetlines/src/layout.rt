// Where what stands in a sheet's lines.

// Line 1 tells eight bytes of nonce, and four, two and one of the lengths of message, header and tag.
pub const FIRST_BYTES: usize = 15;

pub const FIRST_DIGITS: usize = 30;

// The header's line begins behind line 1 and its line feed.
pub const HEADER_AT: usize = 31;

// A frame has 256 blocks of sixteen bytes and a line of its own. The first one's block 0 is for the tag.
pub const FIRST_FRAME: usize = 4080;

pub const LATER_FRAME: usize = 4096;
