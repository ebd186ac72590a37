// A sheet whose lines were read.
ghost use Rattle.std.specs.Prelude.{◌≡◌, ◌*◌, ◌≤◌, length, take, drop, Ok};
ghost use Rattle.checks.specs.Checks.{check_told, check_answer};
ghost use Rattle.method.specs.Published.{crypt};
ghost use Rattle.refusals.specs.Answers.{answered};
ghost use Rattle.sheetlines.specs.Sheets.{sheet_answer, header_at, cipher_at, tag_at, header_of, cipher_of, tag_of};
ghost use Rattle.sheetopener.specs.Opens.{at_front};

use crate::body::{hash_body, hash_line, split_line, take_body};
use checks::fault::CheckFault;
use checks::sheet::confirm::confirm_tag;
use ciphers::cipher::Permutation;
use digits::codec::decode;
use keystream::Keystream;
use keystream::hash::hash_keys;
use method::limits::TAG_MOST;
use sheetlines::fields::Fields;
use sheetlines::layout::HEADER_AT;

// The lines of a sheet, and what the first of them tells.
#[derive(Clone, Copy)]
pub(crate) struct ReadSheet<'a> {
    pub(crate) text: &'a [u8],
    pub(crate) fields: Fields,
    ghost read: { sheet_answer text.now ≡ Ok fields },
}

impl ReadSheet<'_> {
    // The digits of the header's line, and the lines after it.
    fn header_and_body(&self) -> (&[u8], &[u8])
        ensures header { result.0.now ≡ take (2 * self.now.fields.header_len) (drop header_at self.now.text.now) }
        ensures body { result.1.now ≡ drop (cipher_at self.now.fields) self.now.text.now }
    {
        split_line(&self.text[HEADER_AT..], self.fields.header_len)
    }

    // The digits of the tag's line, which is the last.
    fn tag_digits(&self) -> &[u8]
        ensures { result.now ≡ take (2 * self.now.fields.tag_len) (drop (tag_at self.now.fields) self.now.text.now) }
    {
        let end = self.text.len() - 1;
        &self.text[end - 2 * self.fields.tag_len..end]
    }

    // Confirms the tag. Nothing is deciphered.
    pub(crate) fn confirm<C: Permutation>(&self, cipher: &C) -> Result<(), CheckFault>
        ensures { answered check_told result ≡ check_answer (C.image cipher.now) self.now.fields.nonce
            (header_of self.now.fields self.now.text.now) (cipher_of self.now.fields self.now.text.now)
            (tag_of self.now.fields self.now.text.now) }
    {
        let (ciphertext_key, header_key) = hash_keys(cipher);
        let (header, body) = self.header_and_body();
        let header_hash = hash_line(header_key, header);
        let ciphertext_hash = hash_body(ciphertext_key, body, self.fields.message_len);
        // no heap here: a room as long as can be
        let mut bytes = [0; TAG_MOST];
        let tag = &mut bytes[..self.fields.tag_len];
        decode(self.tag_digits(), tag);
        confirm_tag(cipher, self.fields.nonce, ciphertext_hash, header_hash, tag)
    }

    // Puts the header to the front of a buffer.
    pub(crate) fn give_header(&self, out: &mut [u8])
        requires { self.now.fields.header_len ≤ length out.old }
        ensures { out.new ≡ at_front (header_of self.now.fields self.now.text.now) out.old }
    {
        let (header, _) = self.header_and_body();
        decode(header, &mut out[..self.fields.header_len]);
    }

    // Puts the message to the front of a buffer: the ciphertext, deciphered in place.
    pub(crate) fn give_message<C: Permutation>(&self, cipher: &C, out: &mut [u8])
        requires { self.now.fields.message_len ≤ length out.old }
        ensures { out.new ≡ at_front
            (crypt (C.image cipher.now) self.now.fields.nonce (cipher_of self.now.fields self.now.text.now)) out.old }
    {
        let message = &mut out[..self.fields.message_len];
        let (_, body) = self.header_and_body();
        take_body(body, message);
        Keystream::new(cipher, self.fields.nonce).xor_onto(0, message);
    }
}
