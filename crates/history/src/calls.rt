ghost use Rattle.std.specs.Prelude.{◌≡◌, ℕ, ◌+◌, ◌<◌, ◌≤◌, ◌++◌, map, length, IfOk, Some, None, vec_len, vec_capacity, slice_index_or, slice_set};
ghost use Rattle.std.specs.List.{AllZip};
ghost use Rattle.blocks.specs.Blocks.{AllBytes};
ghost use Rattle.chm.specs.Drafts.{bodied};
ghost use Rattle.chm.specs.Sealers.{sealer_standing, begin_answer, begun};
ghost use Rattle.history.specs.Held.{Answered};
ghost use Rattle.history.specs.Laws.{Histories};
ghost use Rattle.history.specs.Runs.{asked, said, begun_said, wrote_said};
ghost use Rattle.history.specs.Slots.{begin_said, new_slot, head_said, head_slot, body_said, body_slot, finish_said, RoomFor};

use crate::{Call, Reply};
use chm::draft::Draft;
use chm::fault::{BeginFault, BodyFault};
use chm::sealer::Sealer;
use ciphers::cipher::Permutation;
use std::alloc::{AllocError, Global};
use stores::store::MarkStore;

// Begins, and keeps the draft in a place of its own at the end. It gives the draft's number.
fn begin_one<C: Permutation, S: MarkStore>(
    sealer: &mut Sealer<C, S>,
    drafts: &mut Vec<Option<Draft>>,
    tag_len: u8,
) -> Result<usize, BeginFault>
    requires { vec_len drafts.old < vec_capacity drafts.old }
    ensures answer { begun_said result ≡ begin_said (vec_len drafts.old) (begin_answer (C.image sealer.old.cipher) (sealer_standing S.meaning sealer.old) tag_len) }
    ensures stands { sealer_standing S.meaning sealer.new ≡ begun (sealer_standing S.meaning sealer.old) tag_len }
    ensures cipher { sealer.new.cipher ≡ sealer.old.cipher }
    ensures items { drafts.new.items ≡ drafts.old.items ++ new_slot (begin_answer (C.image sealer.old.cipher) (sealer_standing S.meaning sealer.old) tag_len) }
    ensures capacity { vec_capacity drafts.new ≡ vec_capacity drafts.old }
{
    let draft = sealer.begin(tag_len)?;
    let n = drafts.len();
    drafts.push_reserved(Some(draft));
    Ok(n)
}

// The draft is reached by its index: of what get_mut lends out of a slice, a proof learns no more than the length.
// A piece in memory is bytes, so a draft that is fed one is fed bytes.
#[tactic(auto, using(std::proofs::lemmas::List::get_or_past, std::proofs::lemmas::List::set_past, blocks::proofs::Numbers::all_bytes))]
fn head_one(drafts: &mut [Option<Draft>], n: usize, piece: &[u8]) -> Option<Reply>
    ensures answer { said result ≡ head_said (slice_index_or drafts.old n None) piece.now }
    ensures items { drafts.new ≡ slice_set drafts.old n (head_slot (slice_index_or drafts.old n None) piece.now) }
    ensures bytes { AllBytes piece.now }
{
    if n >= drafts.len() {
        return None;
    }
    let draft = drafts[n].as_mut()?;
    Some(Reply::Headed(draft.head(piece)))
}

// Feeds a piece of message to a draft, and gives the buffer with its ciphertext.
fn written<C: Permutation>(
    draft: &mut Draft,
    cipher: &C,
    piece: &[u8],
    mut out: Vec<u8>,
) -> Result<Vec<u8>, BodyFault>
    ensures answer { wrote_said result ≡ body_said (C.image cipher.now) (Some draft.old) piece.now (vec_len out) }
    ensures after { draft.new ≡ bodied (C.image cipher.now) draft.old piece.now (vec_len out) }
{
    draft.body(cipher, piece, &mut out)?;
    Ok(out)
}

#[tactic(auto, using(std::proofs::lemmas::List::get_or_past, std::proofs::lemmas::List::set_past, blocks::proofs::Numbers::all_bytes))]
fn body_one<C: Permutation>(
    drafts: &mut [Option<Draft>],
    n: usize,
    cipher: &C,
    piece: &[u8],
    out: Vec<u8>,
) -> Option<Reply>
    ensures answer { said result ≡ body_said (C.image cipher.now) (slice_index_or drafts.old n None) piece.now (vec_len out) }
    ensures items { drafts.new ≡ slice_set drafts.old n (body_slot (C.image cipher.now) (slice_index_or drafts.old n None) piece.now (vec_len out)) }
    ensures bytes { AllBytes piece.now }
{
    if n >= drafts.len() {
        return None;
    }
    let draft = drafts[n].as_mut()?;
    Some(Reply::Wrote(written(draft, cipher, piece, out)))
}

#[tactic(auto, using(std::proofs::lemmas::List::get_or_past, std::proofs::lemmas::List::set_past))]
fn finish_one(drafts: &mut [Option<Draft>], n: usize) -> Option<Reply>
    ensures answer { said result ≡ finish_said (slice_index_or drafts.old n None) }
    ensures items { drafts.new ≡ slice_set drafts.old n None }
{
    if n >= drafts.len() {
        return None;
    }
    let draft = drafts[n].take()?;
    Some(Reply::Finished(draft.finish()))
}

// Gives one call, with the buffer that a body wants, and answers as every sound history that sealer and drafts hold is answered.
// An entry that names no open draft is no call, and has no answer.
// The buffer comes beside the call, since it is taken before the first call.
fn answer<C: Permutation, S: MarkStore>(
    sealer: &mut Sealer<C, S>,
    drafts: &mut Vec<Option<Draft>>,
    call: &Call<'_>,
    out: Option<Vec<u8>>,
) -> Option<Reply>
    requires space { vec_len drafts.old < vec_capacity drafts.old }
    requires room { RoomFor (asked call.now) out }
    ensures answered { Answered (C.image sealer.old.cipher) (sealer_standing S.meaning sealer.old) drafts.old.items (asked call.now) (said result) (sealer_standing S.meaning sealer.new) drafts.new.items }
    ensures cipher { sealer.new.cipher ≡ sealer.old.cipher }
    ensures longer { vec_len drafts.new ≤ vec_len drafts.old + 1 }
    ensures capacity { vec_capacity drafts.new ≡ vec_capacity drafts.old }
{
    match call {
        Call::Begin { tag_len } => Some(Reply::Begun(begin_one(sealer, drafts, *tag_len))),
        Call::Head { draft, piece } => head_one(drafts, *draft, piece),
        Call::Body { draft, piece, .. } => match out {
            Some(out) => body_one(drafts, *draft, sealer.cipher(), piece, out),
            None => unreachable(),
        },
        Call::Finish { draft } => finish_one(drafts, *draft),
        Call::Restart(supply) => {
            sealer.restart(*supply);
            Some(Reply::Restarted)
        }
    }
}

// The buffer that a call wants.
fn buffer_for(heap: Global, call: &Call<'_>) -> Result<Option<Vec<u8>>, AllocError>
    ensures { IfOk result (λ o. RoomFor (asked call.now) o) }
{
    match call {
        Call::Body { room, .. } => Ok(Some(vec![in heap; 0u8; *room]?)),
        _ => Ok(None),
    }
}

// A buffer for each call, all taken before the first call is given.
fn buffers(heap: Global, calls: &[Call<'_>]) -> Result<Vec<Option<Vec<u8>>>, AllocError>
    ensures { IfOk result (λ v. AllZip (λ c o. RoomFor (asked c) o) calls.now v.items) }
{
    let mut all = Vec::with_capacity(heap, calls.len())?;
    for call in calls {
        all.push_reserved(buffer_for(heap, call)?);
    }
    Ok(all)
}

// Sets a sealer up over the cipher and the store, and gives it the calls one after another. Memory is taken before the first call, so
// that either all calls are given or none. The contract is the theorem on every history: the answers are those of a run from
// set-up on, and of every run with these calls and answers the law holds.
pub fn replay<C: Permutation + Drop, S: MarkStore + Drop>(
    heap: Global,
    cipher: C,
    store: S,
    calls: &[Call<'_>],
) -> Result<Vec<Option<Reply>>, AllocError>
    ensures { IfOk result (λ v. Histories (C.image cipher) (S.meaning store) (map asked calls.now) (map said v.items)) }
{
    let outs = buffers(heap, calls)?;
    let mut drafts = Vec::with_capacity(heap, calls.len())?;
    let mut replies = Vec::with_capacity(heap, calls.len())?;
    let mut sealer = Sealer::new(cipher, store);
    for (call, out) in calls.iter().zip(outs) {
        replies.push_reserved(answer(&mut sealer, &mut drafts, call, out));
    }
    Ok(replies)
}
