// What a store is handed when it is put on: how many raises will complete, and the byte that a cut leaves.
#[derive(Clone, Copy, Debug, PartialEq, Eq)]
pub struct Supply {
    pub power: u32,
    pub leftover: u8,
}
