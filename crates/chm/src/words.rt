// What is held of a keystream between two pieces: how many message bytes have passed, and the mask (`veil`) and the keystream block
// (`word`) of the last of them. With the two at hand, a small piece draws nothing again.
#[derive(Clone, Copy, Default)]
pub(crate) struct KeyWords {
    pub(crate) len: usize,
    pub(crate) veil: u128,
    pub(crate) word: u128,
}

pub(crate) mod calls;
