// A block is sixteen bytes; as a number it is big-endian.
#![tactic(auto)]

ghost use Rattle.std.specs.Prelude.{◌≡◌};
ghost use Rattle.blocks.specs.Blocks.{number, bytes_of};

pub const BLOCK_BYTES: usize = 16;

// The number that a block's bytes are.
// A name for the library's call, with the clauses by which all specifications speak of blocks.
pub fn from_bytes(bytes: [u8; 16]) -> u128
    ensures value { result ≡ number bytes }
    ensures back { bytes_of 16 result ≡ bytes }
{
    u128::from_be_bytes(bytes)
}

// The bytes of a block.
pub fn to_bytes(block: u128) -> [u8; 16]
    ensures value { result ≡ bytes_of 16 block }
    ensures back { number result ≡ block }
{
    block.to_be_bytes()
}
