ghost use Rattle.std.specs.Prelude.{◌≡◌, true, None};
ghost use Rattle.refusals.specs.Answers.{answered};
ghost use Rattle.stores.specs.Store.{raise_told};
ghost use Rattle.chm.specs.Sealers.{standing, sealer_standing, issue_answer, issued, begin_told, tag_answer, begin_answer, begun, restarted_sealer};

use crate::batch::{BATCH_NONCES, Batch};
use crate::draft::Draft;
use crate::fault::BeginFault;
use crate::sealer::Sealer;
use ciphers::cipher::Permutation;
use method::limits::is_tag_length;
use stores::fault::RaiseFault;
use stores::store::MarkStore;
use stores::supply::Supply;

// Tests the length of a tag.
pub(crate) fn check_tag_len(tag_len: u8) -> Result<(), BeginFault>
    ensures { answered begin_told result ≡ tag_answer tag_len }
{
    if !is_tag_length(usize::from(tag_len)) {
        return Err(BeginFault::TagLength);
    }
    Ok(())
}

impl<C: Permutation, S: MarkStore> Sealer<C, S> {
    // Set-up: live and without a batch, over a cipher and a store as it is.
    pub fn new(cipher: C, store: S) -> Sealer<C, S>
        ensures stands { sealer_standing S.meaning result ≡ standing (S.meaning store) true None }
        ensures cipher { result.cipher ≡ cipher }
    {
        Sealer {
            cipher,
            store,
            live: true,
            batch: None,
        }
    }

    // The cipher, for the calls on a draft that want one.
    pub fn cipher(&self) -> &C
        ensures { result.now ≡ self.now.cipher }
    {
        &self.cipher
    }

    // The next nonce of the batch; where none is left, the first of a new one. A raise that completed is what makes a batch.
    fn issue(&mut self) -> Result<u64, RaiseFault>
        ensures answer { answered raise_told result ≡ issue_answer (sealer_standing S.meaning self.old) }
        ensures after { sealer_standing S.meaning self.new ≡ issued (sealer_standing S.meaning self.old) }
        ensures cipher { self.new.cipher ≡ self.old.cipher }
    {
        if let Some(batch) = &mut self.batch
            && let Some(nonce) = batch.next()
        {
            return Ok(nonce);
        }
        let raised = self.store.raise();
        if let Err(RaiseFault::PowerFailed) = raised {
            self.live = false;
        }
        let number = raised?;
        self.batch = Some(Batch { number, given: 1 });
        Ok(BATCH_NONCES * number)
    }

    // Hands out a draft under the next nonce. It refuses a tag length outside 12 to 16 (4), and uses no nonce then; a sealer that is
    // down (21); and what the raise reports where the batch has no nonce left: full (22), or a power failure (23), which takes the
    // sealer down.
    pub fn begin(&mut self, tag_len: u8) -> Result<Draft, BeginFault>
        ensures answer { answered begin_told result ≡ begin_answer (C.image self.old.cipher) (sealer_standing S.meaning self.old) tag_len }
        ensures after { sealer_standing S.meaning self.new ≡ begun (sealer_standing S.meaning self.old) tag_len }
        ensures cipher { self.new.cipher ≡ self.old.cipher }
    {
        check_tag_len(tag_len)?;
        if !self.live {
            return Err(BeginFault::Down);
        }
        let nonce = self.issue()?;
        Ok(Draft::new(&self.cipher, nonce, tag_len))
    }

    // Live again, without a batch, over the store restarted with this supply. What was left of the batch is never given out, and
    // open drafts go on.
    pub fn restart(&mut self, supply: Supply)
        ensures after { sealer_standing S.meaning self.new ≡ restarted_sealer (sealer_standing S.meaning self.old) supply.power supply.leftover }
        ensures cipher { self.new.cipher ≡ self.old.cipher }
    {
        self.store.restart(supply);
        self.live = true;
        self.batch = None;
    }
}
