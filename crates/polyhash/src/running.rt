// A hash that is under way.
pub mod calls;

// `key` is the block that it is under, `sum` the hash of the whole blocks so far, and `part` the number of the `fill` bytes
// that stand after them. Every value is a running hash, and a copy goes on by itself.
// A number and how many bytes it is of: a draft holds words and no array.
#[derive(Clone, Copy)]
pub struct Running {
    key: u128,
    sum: u128,
    part: u128,
    fill: u8,
}
