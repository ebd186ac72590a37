use crate::words::KeyWords;
use polyhash::running::Running;

// A seal under way: words, and no array. It is moved and not copied, so a finished draft cannot be used again.
#[derive(Drop)]
pub struct Draft {
    nonce: u64,
    tag_len: u8,
    first: u128,
    words: KeyWords,
    body_hash: Running,
    head_len: usize,
    head_hash: Running,
}

// What finish gives: the nonce, the tag's length, and sixteen bytes, the tag and then zeros, since that is the form in which a seal
// is handed on. It has no ==, which would stop at the first byte that differs.
#[derive(Debug, Drop)]
pub struct Sealed {
    pub nonce: u64,
    pub tag_len: u8,
    pub tag: [u8; 16],
}

pub mod calls;
