ghost use Rattle.std.specs.Prelude.{◌≡◌, Some, MatchResult};
ghost use Rattle.cipherlines.specs.Printed.{reply_text};
ghost use Rattle.cipherlines.specs.Sessions.{session_state, reply_to, next_state, key_reply, after_key, keying, naming, enciphering};
ghost use Rattle.cipherlines.specs.Chosen.{chosen_image};

use crate::chosen::{Chosen, Name};
use ciphers::cipher::Permutation;
use ciphers::fault::KeyFault;
use digits::block::BlockDigits;
use refusals::Refusal;
use std::alloc::{AllocError, Global};
use std::fmt;

// Two digits a byte.
pub const BLOCK_DIGITS: usize = 32;

// What a line is answered with.
#[derive(Clone, Copy, Debug, PartialEq, Eq)]
pub enum Reply {
    // the line names a cipher
    Named(Name),
    // the line is a key, and the cipher is made of it or refuses it
    Keyed(Result<Name, KeyFault>),
    // the line is a block
    Image { block: u128, image: u128 },
    // the line is empty: another cipher may be named
    Ended,
}

// As `cipher aes`, `made aes of the key`, `refused 7` and, for a block, `BLOCK becomes IMAGE`.
impl fmt::Display for Reply {
    ghost output = { λ r. Some (reply_text r) };

    fn fmt<W: fmt::Write>(&self, f: &mut fmt::Formatter<W>) -> fmt::Result {
        match self {
            Reply::Named(name) => write!(f, "cipher {name}"),
            Reply::Keyed(Ok(name)) => write!(f, "made {name} of the key"),
            Reply::Keyed(Err(fault)) => {
                let number = fault.number();
                write!(f, "refused {number}")
            }
            Reply::Image { block, image } => {
                let (block, image) = (BlockDigits(*block), BlockDigits(*image));
                write!(f, "{block} becomes {image}")
            }
            Reply::Ended => Ok(()),
        }
    }
}

// A key lies in it, so it derives neither printing nor comparison.
#[derive(Clone, Copy)]
enum Stage {
    Naming,
    Keying(Name),
    Enciphering(Chosen),
}

// Takes lines one after another: a cipher's name, a key in digits, then blocks of 32 digits; an empty line ends the blocks,
// and another name may come. A line that is bad or refused leaves the session where it was.
// A key lies in it, so it derives neither printing nor comparison. Contracts name what it means by `session_state`, of which the
// definitions speak: a model would name it twice.
#[derive(Clone, Copy)]
pub struct Session {
    stage: Stage,
}

impl Session {
    // A session that waits for a name.
    pub fn new() -> Session
        ensures { session_state result ≡ naming }
    {
        Session {
            stage: Stage::Naming,
        }
    }

    // The answer to a line, `None` where it is none that can stand here; want of memory leaves the session where it was.
    pub fn feed(&mut self, heap: Global, line: &str) -> Result<Option<Reply>, AllocError>
        ensures { MatchResult result (λ reply. (reply ≡ reply_to (session_state self.old) line.now) × (session_state self.new ≡ next_state (session_state self.old) line.now)) (λ _. session_state self.new ≡ session_state self.old) }
    {
        match self.stage {
            Stage::Naming => Ok(self.feed_name(line)),
            Stage::Keying(name) => self.feed_key(heap, name, line),
            Stage::Enciphering(cipher) => Ok(self.feed_block(cipher, line)),
        }
    }

    fn feed_name(&mut self, line: &str) -> Option<Reply>
        requires { session_state self.old ≡ naming }
        ensures reply { result ≡ reply_to naming line.now }
        ensures after { session_state self.new ≡ next_state naming line.now }
    {
        let name = line.parse().ok()?;
        self.stage = Stage::Keying(name);
        Some(Reply::Named(name))
    }

    fn feed_key(
        &mut self,
        heap: Global,
        name: Name,
        line: &str,
    ) -> Result<Option<Reply>, AllocError>
        requires { session_state self.old ≡ keying name }
        ensures { MatchResult result (λ reply. (reply ≡ reply_to (keying name) line.now) × (session_state self.new ≡ next_state (keying name) line.now)) (λ _. session_state self.new ≡ session_state self.old) }
    {
        let Some(key) = digits::bytes(heap, line.as_bytes())? else {
            return Ok(None);
        };
        Ok(Some(Reply::Keyed(self.set_key(name, &key))))
    }

    fn set_key(&mut self, name: Name, key: &[u8]) -> Result<Name, KeyFault>
        requires { session_state self.old ≡ keying name }
        ensures reply { Some (Reply.Keyed result) ≡ key_reply name (Some key.now) }
        ensures after { session_state self.new ≡ after_key name (Some key.now) }
    {
        let cipher = name.under_key(key)?;
        self.stage = Stage::Enciphering(cipher);
        Ok(name)
    }

    fn feed_block(&mut self, cipher: Chosen, line: &str) -> Option<Reply>
        requires { session_state self.old ≡ enciphering (chosen_image cipher) }
        ensures reply { result ≡ reply_to (enciphering (chosen_image cipher)) line.now }
        ensures after { session_state self.new ≡ next_state (enciphering (chosen_image cipher)) line.now }
    {
        if line.is_empty() {
            self.stage = Stage::Naming;
            return Some(Reply::Ended);
        }
        let block = digits::number(line.as_bytes(), BLOCK_DIGITS)?;
        let image = cipher.image_of(block);
        Some(Reply::Image { block, image })
    }
}
