// Histories: lists of calls replayed on a sealer, from set-up on. The theorem on every history is the contract of `replay`.
#![tactic(auto)]

use chm::draft::Sealed;
use chm::fault::{BeginFault, BodyFault, HeadFault};
use stores::supply::Supply;

// A call on a sealer, or on the draft of the accepted begin of that number. A body carries the length of the buffer that is
// handed in for its ciphertext.
#[derive(Clone, Copy, Debug, PartialEq, Eq)]
pub enum Call<'a> {
    Begin {
        tag_len: u8,
    },
    Head {
        draft: usize,
        piece: &'a [u8],
    },
    Body {
        draft: usize,
        piece: &'a [u8],
        room: usize,
    },
    Finish {
        draft: usize,
    },
    Restart(Supply),
}

// What a call answered.
// It has no ==, since a `Sealed` has none.
#[derive(Debug, Drop)]
pub enum Reply {
    // the number of the draft
    Begun(Result<usize, BeginFault>),
    Headed(Result<(), HeadFault>),
    // the ciphertext that the body wrote
    Wrote(Result<Vec<u8>, BodyFault>),
    Finished(Sealed),
    Restarted,
}

pub mod calls;
