// A sheet whose tag was found right: the caller's ciphertext, and its nonce. Only check makes one, so nothing unchecked can be read.
#[derive(Drop)]
pub struct CheckedSheet<'a> {
    ciphertext: &'a [u8],
    nonce: u64,
}

pub mod calls;
pub mod confirm;
