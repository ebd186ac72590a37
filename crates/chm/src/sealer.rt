ghost use Rattle.std.specs.Prelude.{◌^◌, ◌<◌, ◌≤◌};
ghost use Rattle.chm.specs.Batches.{number_of, given_of};

use crate::batch::Batch;

pub mod calls;
pub mod seal;

// Hands out drafts, each under a nonce of its own, over a cipher and a mark store of any kinds.
// That the cipher stays is a clause of its own in each contract, beside how the sealer stands: a caller wants one of the two, and
// would take a word for both apart at each use.
// Contracts name how a sealer stands by `sealer_standing`, of which the laws speak: a model would name it a second time.
// Live or down is one thing and a batch or none another: a live sealer may have none, and one that is down keeps what it had.
#[derive(Drop)]
pub struct Sealer<C, S> {
    cipher: C,
    store: S,
    live: bool,
    batch: Option<Batch>,
    ghost numbered: { number_of batch < 2 ^ 53 },
    ghost counted: { given_of batch ≤ 1024 },
}
