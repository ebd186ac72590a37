// A header and a message sealed in one call, for who has both at hand.
ghost use Rattle.std.specs.Prelude.{◌≡◌, length};
ghost use Rattle.refusals.specs.Answers.{answered};
ghost use Rattle.chm.specs.Sealers.{sealer_standing};
ghost use Rattle.chm.specs.Seals.{seal_told, sizes_answer, seal_answer, sealed_standing, seal_out};

use crate::draft::Sealed;
use crate::draft::calls::{check_header_len, check_message_len};
use crate::fault::SealFault;
use crate::sealer::Sealer;
use crate::sealer::calls::check_tag_len;
use ciphers::cipher::Permutation;
use stores::store::MarkStore;

fn sizes_fit(tag_len: u8, header: usize, message: usize, room: usize) -> Result<(), SealFault>
    ensures { answered seal_told result ≡ sizes_answer tag_len header message room }
{
    check_tag_len(tag_len)?;
    check_header_len(0, header)?;
    check_message_len(0, message, room)?;
    Ok(())
}

impl<C: Permutation, S: MarkStore> Sealer<C, S> {
    // Seals a header and a message under the next nonce, and writes the ciphertext to an output of the message's length. A tag length
    // outside 12 to 16 (4), a header over 4,096 bytes (1), an output of another length (3) and a message over 1,048,576 bytes (2) are
    // refused first and use no nonce; then begin's refusals (21, 22, 23). The output stays as it was where anything is refused.
    pub fn seal(
        &mut self,
        tag_len: u8,
        header: &[u8],
        message: &[u8],
        out: &mut [u8],
    ) -> Result<Sealed, SealFault>
        ensures answer { answered seal_told result ≡ seal_answer (C.image self.old.cipher) (sealer_standing S.meaning self.old) tag_len header.now message.now (length out.old) }
        ensures after { sealer_standing S.meaning self.new ≡ sealed_standing (sealer_standing S.meaning self.old) tag_len header.now message.now (length out.old) }
        ensures wrote { out.new ≡ seal_out (C.image self.old.cipher) (sealer_standing S.meaning self.old) tag_len header.now message.now out.old }
        ensures cipher { self.new.cipher ≡ self.old.cipher }
    {
        sizes_fit(tag_len, header.len(), message.len(), out.len())?;
        let mut draft = self.begin(tag_len)?;
        // the sizes were tested, so neither piece is refused
        let _ = draft.head(header);
        let _ = draft.body(&self.cipher, message, out);
        Ok(draft.finish())
    }
}
