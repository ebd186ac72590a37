ghost use Rattle.std.specs.Prelude.{◌≡◌, Some, None, MatchOption, MatchResult};
ghost use Rattle.cipherlines.specs.Chosen.{name_of};
ghost use Rattle.digits.specs.Digits.{digits_bytes, number_of};
ghost use Rattle.polyhash.specs.Running.{started};
ghost use Rattle.words.specs.Splits.{parted};
ghost use Rattle.workinglines.specs.Printed.{reply_text};
ghost use Rattle.workinglines.specs.Replies.{session_state, state, step, parts_step, topic_step, cipher_parts, cipher_step, nonce_step, product_parts, hash_step, piece_step, mask_step, block_step, counters_step, keys_step, end_step};

use crate::topic::Topic;
use cipherlines::chosen::{Chosen, Name};
use cipherlines::session::BLOCK_DIGITS;
use ciphers::fault::KeyFault;
use digits::block::BlockDigits;
use keystream::Keystream;
use keystream::frame::last_counter;
use method::limits::NONCE_END;
use polyhash::running::Running;
use refusals::Refusal;
use std::alloc::{AllocError, Global};
use std::fmt;
use words::parts;

const NONCE_DIGITS: usize = 16;

const INDEX_DIGITS: usize = 8;

// What a line is answered with.
#[derive(Clone, Copy, Debug, PartialEq, Eq)]
pub enum Reply {
    // the cipher is made of the key, or refuses it
    Keyed(Result<Name, KeyFault>),
    Nonce(u64),
    HashKeys { ciphertext: u128, header: u128 },
    Mask { frame: u32, mask: u128 },
    Block { index: u32, block: u128 },
    // the last counter of a message of so many blocks
    Last(u64),
    Product(u128),
    Begun,
    // a piece of so many bytes
    Absorbed(usize),
    Hashed(u128),
}

// As `made aes of the key`, `refused 7`, `nonce 3` and the like.
impl fmt::Display for Reply {
    ghost output = { λ r. Some (reply_text r) };

    fn fmt<W: fmt::Write>(&self, f: &mut fmt::Formatter<W>) -> fmt::Result {
        match self {
            Reply::Keyed(Ok(name)) => write!(f, "made {name} of the key"),
            Reply::Keyed(Err(fault)) => {
                let number = fault.number();
                write!(f, "refused {number}")
            }
            Reply::Nonce(nonce) => write!(f, "nonce {nonce}"),
            Reply::HashKeys { ciphertext, header } => {
                let (ciphertext, header) = (BlockDigits(*ciphertext), BlockDigits(*header));
                write!(f, "hash keys {ciphertext} and {header}")
            }
            Reply::Mask { frame, mask } => {
                let mask = BlockDigits(*mask);
                write!(f, "mask of frame {frame} is {mask}")
            }
            Reply::Block { index, block } => {
                let block = BlockDigits(*block);
                write!(f, "keystream block {index} is {block}")
            }
            Reply::Last(counter) => write!(f, "last counter {counter}"),
            Reply::Product(product) => {
                let product = BlockDigits(*product);
                write!(f, "product {product}")
            }
            Reply::Begun => f.write_str("a hash begins"),
            Reply::Absorbed(count) => write!(f, "absorbed {count} bytes"),
            Reply::Hashed(hash) => {
                let hash = BlockDigits(*hash);
                write!(f, "hash {hash}")
            }
        }
    }
}

// What the lines so far have set: a cipher, a nonce, and a hash that runs under a key. A line that is bad or refused changes
// nothing.
// A key lies in it, so it derives neither printing nor comparison. Contracts name what it means by `session_state`, of which the
// definitions speak: a model would name it twice.
#[derive(Clone, Copy)]
pub struct Session {
    cipher: Option<Chosen>,
    nonce: u64,
    running: Running,
}

// The number that 32 digits are.
fn block_number(text: &str) -> Option<u128>
    ensures { result ≡ number_of 32 text.now }
{
    digits::number(text.as_bytes(), BLOCK_DIGITS)
}

// The number that 8 digits are.
fn index_number(text: &str) -> Option<u32>
    ensures { result ≡ number_of 8 text.now }
{
    let number = digits::number(text.as_bytes(), INDEX_DIGITS)?;
    Some(number as u32)
}

impl Session {
    // No cipher yet, nonce 0, and a hash of nothing under the key 0.
    pub fn new() -> Session
        ensures { session_state result ≡ state None 0 (started 0) }
    {
        Session {
            cipher: None,
            nonce: 0,
            running: Running::new(0),
        }
    }

    // The answer to a line, `None` to a bad one; want of memory leaves the session as it was.
    pub fn feed(&mut self, heap: Global, line: &str) -> Result<Option<Reply>, AllocError>
        ensures { MatchResult result (λ reply. (reply, session_state self.new) ≡ step (session_state self.old) line.now) (λ _. session_state self.new ≡ session_state self.old) }
    {
        match line {
            "hashkeys" => Ok(self.hash_keys()),
            "end" => Ok(Some(self.end())),
            _ => self.feed_words(heap, line),
        }
    }

    fn feed_words(&mut self, heap: Global, line: &str) -> Result<Option<Reply>, AllocError>
        ensures { MatchResult result (λ reply. (reply, session_state self.new) ≡ parts_step (session_state self.old) (parted line.now)) (λ _. session_state self.new ≡ session_state self.old) }
    {
        let Some((word, rest)) = parts(line) else {
            return Ok(None);
        };
        match word.parse() {
            Ok(topic) => self.feed_topic(heap, topic, rest),
            Err(_) => Ok(None),
        }
    }

    fn feed_topic(
        &mut self,
        heap: Global,
        topic: Topic,
        rest: &str,
    ) -> Result<Option<Reply>, AllocError>
        ensures { MatchResult result (λ reply. (reply, session_state self.new) ≡ topic_step (session_state self.old) (Some topic) rest.now) (λ _. session_state self.new ≡ session_state self.old) }
    {
        match topic {
            Topic::Cipher => self.set_cipher(heap, rest),
            Topic::Piece => self.absorb(heap, rest),
            Topic::Nonce => Ok(self.set_nonce(rest)),
            Topic::Product => Ok(self.product(rest)),
            Topic::Hash => Ok(self.begin_hash(rest)),
            Topic::Mask => Ok(self.mask(rest)),
            Topic::Block => Ok(self.block(rest)),
            Topic::Counters => Ok(self.counters(rest)),
        }
    }

    fn set_cipher(&mut self, heap: Global, text: &str) -> Result<Option<Reply>, AllocError>
        ensures { MatchResult result (λ reply. (reply, session_state self.new) ≡ cipher_parts (session_state self.old) (parted text.now)) (λ _. session_state self.new ≡ session_state self.old) }
    {
        let Some((name, key)) = parts(text) else {
            return Ok(None);
        };
        let Ok(name) = name.parse() else {
            return Ok(None);
        };
        let Some(key) = digits::bytes(heap, key.as_bytes())? else {
            return Ok(None);
        };
        Ok(Some(Reply::Keyed(self.set_key(name, &key))))
    }

    // The session of `cipherlines` has the same over another state, to which a shared body would have to be lent.
    fn set_key(&mut self, name: Name, key: &[u8]) -> Result<Name, KeyFault>
        ensures { (Some (Reply.Keyed result), session_state self.new) ≡ cipher_step (session_state self.old) (Some name) (Some key.now) }
    {
        let cipher = name.under_key(key)?;
        self.cipher = Some(cipher);
        Ok(name)
    }

    fn set_nonce(&mut self, text: &str) -> Option<Reply>
        ensures { (result, session_state self.new) ≡ nonce_step (session_state self.old) (number_of 16 text.now) }
    {
        let nonce = digits::number(text.as_bytes(), NONCE_DIGITS)?;
        if nonce >= u128::from(NONCE_END) {
            return None;
        }
        self.nonce = nonce as u64;
        Some(Reply::Nonce(self.nonce))
    }

    fn product(&self, text: &str) -> Option<Reply>
        ensures { (result, session_state self.now) ≡ product_parts (session_state self.now) (parted text.now) }
    {
        let (a, b) = parts(text)?;
        let product = polynomials::multiply(block_number(a)?, block_number(b)?);
        Some(Reply::Product(product))
    }

    fn begin_hash(&mut self, text: &str) -> Option<Reply>
        ensures { (result, session_state self.new) ≡ hash_step (session_state self.old) (number_of 32 text.now) }
    {
        let key = block_number(text)?;
        self.running = Running::new(key);
        Some(Reply::Begun)
    }

    fn absorb(&mut self, heap: Global, text: &str) -> Result<Option<Reply>, AllocError>
        ensures { MatchResult result (λ reply. (reply, session_state self.new) ≡ piece_step (session_state self.old) (digits_bytes text.now)) (λ _. session_state self.new ≡ session_state self.old) }
    {
        let Some(piece) = digits::bytes(heap, text.as_bytes())? else {
            return Ok(None);
        };
        self.running.absorb(&piece);
        Ok(Some(Reply::Absorbed(piece.len())))
    }

    fn end(&mut self) -> Reply
        ensures { (Some result, session_state self.new) ≡ end_step (session_state self.old) }
    {
        let hash = self.running.finish();
        self.running = Running::new(self.running.key());
        Reply::Hashed(hash)
    }

    fn hash_keys(&self) -> Option<Reply>
        ensures { (result, session_state self.now) ≡ keys_step (session_state self.now) (session_state self.now).image }
    {
        let cipher = self.cipher.as_ref()?;
        let (ciphertext, header) = keystream::hash::hash_keys(cipher);
        Some(Reply::HashKeys { ciphertext, header })
    }

    fn mask(&self, text: &str) -> Option<Reply>
        ensures { (result, session_state self.now) ≡ mask_step (session_state self.now) (session_state self.now).image (number_of 8 text.now) }
    {
        let cipher = self.cipher.as_ref()?;
        let frame = index_number(text)?;
        let mask = Keystream::new(cipher, self.nonce).mask_of(frame);
        Some(Reply::Mask { frame, mask })
    }

    fn block(&self, text: &str) -> Option<Reply>
        ensures { (result, session_state self.now) ≡ block_step (session_state self.now) (session_state self.now).image (number_of 8 text.now) }
    {
        let cipher = self.cipher.as_ref()?;
        let index = index_number(text)?;
        let block = Keystream::new(cipher, self.nonce).block_of(index);
        Some(Reply::Block { index, block })
    }

    fn counters(&self, text: &str) -> Option<Reply>
        ensures { (result, session_state self.now) ≡ counters_step (session_state self.now) (number_of 8 text.now) }
    {
        let blocks = index_number(text)?;
        Some(Reply::Last(last_counter(blocks)))
    }
}
