ghost use Rattle.std.specs.Prelude.{◌≡◌, length, IfOk};
ghost use Rattle.refusals.specs.Answers.{answered};
ghost use Rattle.checks.specs.Checks.{accepted, check_told, check_answer, read_told, read_answer, read_out};
ghost use Rattle.checks.specs.Laws.{CheckLaws};

use crate::fault::{CheckFault, ReadFault};
use crate::sheet::CheckedSheet;
use crate::sheet::confirm::confirm_tag;
use ciphers::cipher::Permutation;
use keystream::Keystream;
use keystream::hash::hash_keys;
use method::sheet::Sheet;
use polyhash::running::calls::hash_of;

// Checks a sheet: its limits, and then the tag. Nothing is deciphered. The last clause is the theorem on what is accepted
// and on what reads of it give.
pub fn check<'c, C: Permutation>(
    cipher: &C,
    sheet: &Sheet<'_, 'c>,
) -> Result<CheckedSheet<'c>, CheckFault>
    ensures answer { answered check_told (accepted result) ≡ check_answer (C.image cipher.now)
        sheet.now.nonce sheet.now.header.now sheet.now.ciphertext.now sheet.now.tag.now }
    ensures sheet { IfOk result (λ s.
        (s.ciphertext.now ≡ sheet.now.ciphertext.now) × (s.nonce ≡ sheet.now.nonce)) }
    ensures laws { CheckLaws }
{
    sheet.within_limits()?;
    let Sheet {
        nonce,
        header,
        ciphertext,
        tag,
    } = *sheet;
    let (ciphertext_key, header_key) = hash_keys(cipher);
    let ciphertext_hash = hash_of(ciphertext_key, ciphertext);
    let header_hash = hash_of(header_key, header);
    confirm_tag(cipher, nonce, ciphertext_hash, header_hash, tag)?;
    Ok(CheckedSheet { ciphertext, nonce })
}

impl CheckedSheet<'_> {
    pub fn nonce(&self) -> u64
        ensures { result ≡ self.now.nonce }
    {
        self.nonce
    }

    // The message's length.
    pub fn len(&self) -> usize
        ensures { result ≡ length self.now.ciphertext.now }
    {
        self.ciphertext.len()
    }

    // Fills a buffer with the message's bytes from an offset on, or refuses and leaves it as it was. Under another cipher
    // than the check's it gives the ciphertext xored with that cipher's keystream.
    pub fn read<C: Permutation>(
        &self,
        cipher: &C,
        offset: usize,
        out: &mut [u8],
    ) -> Result<(), ReadFault>
        ensures answer { answered read_told result ≡ read_answer self.now.ciphertext.now offset (length out.old) }
        ensures wrote { out.new ≡
            read_out (C.image cipher.now) self.now.nonce self.now.ciphertext.now offset out.old }
    {
        let len = self.len();
        let room = out.len();
        if offset > len || room > len - offset {
            return Err(ReadFault::PastEnd);
        }
        out.copy_from_slice(&self.ciphertext[offset..offset + room]);
        Keystream::new(cipher, self.nonce).xor_onto(offset as u64, out);
        Ok(())
    }
}
