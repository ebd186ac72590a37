ghost use Rattle.std.specs.Prelude.{◌≡◌, ◌+◌, [], length, take, nat_le};
ghost use Rattle.method.specs.Published.{tag_block};
ghost use Rattle.refusals.specs.Answers.{answered};
ghost use Rattle.chm.specs.Drafts.{words_of, head_told, header_answer, head_answer, headed, body_told, message_answer, body_answer, bodied, body_out, sealed, tag_then_zeros};
ghost use Rattle.chm.specs.Laws.{DraftLaws};

use crate::draft::{Draft, Sealed};
use crate::fault::{BodyFault, HeadFault};
use crate::words::KeyWords;
use ciphers::cipher::Permutation;
use keystream::Keystream;
use keystream::hash::hash_keys;
use method::limits::{HEADER_LIMIT, MESSAGE_LIMIT, TAG_MOST};
use polyhash::running::Running;

// Whether so many bytes more keep within a limit.
fn keeps_within(limit: usize, len: usize, more: usize) -> bool
    ensures { result ≡ nat_le (len + more) limit }
{
    len <= limit && more <= limit - len
}

// Tests whether a header takes so many bytes more.
pub(crate) fn check_header_len(len: usize, more: usize) -> Result<(), HeadFault>
    ensures { answered head_told result ≡ header_answer len more }
{
    if !keeps_within(HEADER_LIMIT, len, more) {
        return Err(HeadFault::HeaderTooLong);
    }
    Ok(())
}

// Tests whether a message takes so many bytes more, over an output of `room` bytes.
pub(crate) fn check_message_len(len: usize, more: usize, room: usize) -> Result<(), BodyFault>
    ensures { answered body_told result ≡ message_answer len more room }
{
    if room != more {
        return Err(BodyFault::LengthsDiffer);
    }
    if !keeps_within(MESSAGE_LIMIT, len, more) {
        return Err(BodyFault::MessageTooLong);
    }
    Ok(())
}

impl Draft {
    #[tactic(auto, unfolding(crate::specs::Words::held, polyhash::specs::Running::absorbed))]
    pub(crate) fn new<C: Permutation>(cipher: &C, nonce: u64, tag_len: u8) -> Draft
        ensures { result ≡ words_of (C.image cipher.now) nonce tag_len [] [] }
    {
        let (body_key, head_key) = hash_keys(cipher);
        Draft {
            nonce,
            tag_len,
            first: Keystream::new(cipher, nonce).block_of(0),
            words: KeyWords::default(),
            body_hash: Running::new(body_key),
            head_len: 0,
            head_hash: Running::new(head_key),
        }
    }

    // Appends a piece of header. A header that would pass 4,096 bytes is refused as 1, and the draft stays as it was.
    pub fn head(&mut self, piece: &[u8]) -> Result<(), HeadFault>
        ensures answer { answered head_told result ≡ head_answer self.old piece.now }
        ensures after { self.new ≡ headed self.old piece.now }
    {
        check_header_len(self.head_len, piece.len())?;
        self.head_hash.absorb(piece);
        self.head_len += piece.len();
        Ok(())
    }

    // Appends a piece of message and writes its ciphertext to an output of the same length. An output of another length is refused
    // as 3, a message that would pass 1,048,576 bytes as 2, in this order; draft and output then stay as they were.
    pub fn body<C: Permutation>(
        &mut self,
        cipher: &C,
        piece: &[u8],
        out: &mut [u8],
    ) -> Result<(), BodyFault>
        ensures answer { answered body_told result ≡ body_answer self.old piece.now (length out.old) }
        ensures after { self.new ≡ bodied (C.image cipher.now) self.old piece.now (length out.old) }
        ensures wrote { out.new ≡ body_out (C.image cipher.now) self.old piece.now out.old }
    {
        check_message_len(self.words.len, piece.len(), out.len())?;
        let stream = Keystream::new(cipher, self.nonce);
        self.words = self.words.send(&stream, piece, out);
        self.body_hash.absorb(out);
        Ok(())
    }

    // Ends the draft: the nonce, the tag's length, and sixteen bytes, the tag and then zeros. The second clause ties drafts to the
    // published method, for every list of pieces.
    pub fn finish(self) -> Sealed
        ensures value { result ≡ sealed self }
        ensures laws { DraftLaws }
    {
        let tag = tag_of(
            self.body_hash.finish(),
            self.head_hash.finish(),
            self.first,
            self.tag_len,
        );
        Sealed {
            nonce: self.nonce,
            tag_len: self.tag_len,
            tag,
        }
    }
}

// The tag's bytes, then zeros.
fn tag_of(body_hash: u128, head_hash: u128, first: u128, tag_len: u8) -> [u8; 16]
    ensures { result ≡ tag_then_zeros (tag_block body_hash head_hash first) tag_len }
{
    let mut tag = method::tag_bytes(body_hash, head_hash, first);
    tag[TAG_MOST.min(usize::from(tag_len))..].fill(0);
    tag
}

impl Sealed {
    // The tag without the zeros behind it.
    pub fn tag(&self) -> &[u8]
        ensures { result.now ≡ take self.now.tag_len self.now.tag }
    {
        &self.tag[..TAG_MOST.min(usize::from(self.tag_len))]
    }
}
