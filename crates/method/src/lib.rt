// CHM as it is published (specs/Published.antt), its closed forms, and the one step of it that no crate below has.
#![tactic(auto)]

ghost use Rattle.std.specs.Prelude.{◌≡◌};
ghost use Rattle.blocks.specs.Blocks.{bytes_of};
ghost use Rattle.method.specs.Laws.{MethodLaws};
ghost use Rattle.method.specs.Published.{tag_block};

pub mod limits;
pub mod sheet;

// The sixteen bytes of which a tag is the first ones: the hashes of the ciphertext and of the header, and the keystream's first
// block, xored. The second clause is the theorem on the method that such tags belong to: encryption by the closed forms is the
// published one, and decryption undoes it.
// Two hashes as two numbers: a struct of both would be made and taken apart once at each caller.
pub fn tag_bytes(ciphertext_hash: u128, header_hash: u128, first_block: u128) -> [u8; 16]
    ensures value { result ≡ bytes_of 16 (tag_block ciphertext_hash header_hash first_block) }
    ensures laws { MethodLaws }
{
    blocks::to_bytes(ciphertext_hash ^ header_hash ^ first_block)
}
