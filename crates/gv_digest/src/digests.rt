//! Digests of bytes.

ghost use Rattle.std.specs.Prelude.{◌≡◌, IfOk, length};
ghost use Rattle.gv_digest.specs.Digests.{digest_of};

use gv_base::{Name, NoMemory};
use sha2::{Digest, Sha256};
use std::alloc::Global;

/// The digest of bytes: their SHA-256 (FIPS 180-4), as 64 hexadecimal digits in lower case.
#[tactic(auto, using(crate::proofs::DigestLemmas::length_of_digest))]
pub fn digest(alloc: Global, bytes: &[u8]) -> Result<Name, NoMemory>
    ensures value { IfOk result (λ name. name ≡ digest_of bytes.now) }
    ensures long { IfOk result (λ name. length name ≡ 64) }
{
    let hash = Sha256::digest(bytes);
    let text = hex::encode(alloc, hash.as_slice())?;
    Name::from_slice(alloc, text.as_bytes())
}
