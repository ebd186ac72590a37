// What line 1 tells of a sheet.
// Plain numbers, judged or not: a type for those in range would be made once and taken apart three times.
#[derive(Clone, Copy, Debug, PartialEq, Eq)]
pub struct Fields {
    pub nonce: u64,
    pub message_len: usize,
    pub header_len: usize,
    pub tag_len: usize,
}
