// SHA-256 of FIPS 180-4: a hasher that takes a message in pieces of any length, the digest of some bytes at once,
// and a digest in hexadecimal. Assumes nothing; `sha256` of specs/Digest.antt says what the digest of a message is.
#![tactic(auto)]

ghost use Rattle.std.specs.Prelude.{◌≡◌, ◌<◌, ◌≤◌, length, MatchResult};
ghost use Rattle.sha256.specs.Digest.{sha256};
ghost use Rattle.sha256.specs.Hex.{hex_of};

use hex::encode_to_slice;
use terms::{Cause, Fault};

mod compress;
mod hasher;

pub use hasher::Hasher;

// The longest message that `digest` takes, in bytes.
const LONGEST: usize = 40_000;

// The digest of at most 40,000 bytes. More are refused by fault 1, before anything is computed.
pub fn digest(bytes: &[u8]) -> Result<[u8; 32], Fault>
    ensures { MatchResult result
        (λ d. (length bytes.now ≤ 40000) × (d ≡ sha256 bytes.now))
        (λ f. (40000 < length bytes.now) × (f ≡ record { number = 1; first = 0; second = 0 })) }
{
    if bytes.len() > LONGEST {
        return Err(Cause::TooManyBytes.into());
    }
    let mut hasher = Hasher::new();
    hasher.update(bytes);
    Ok(hasher.finish())
}

// A digest in lower-case hexadecimal: two characters a byte, the high digit first.
pub fn hex(digest: &[u8; 32]) -> [u8; 64]
    ensures { result ≡ hex_of digest.now }
{
    let mut text = [0; 64];
    encode_to_slice(digest, &mut text).unwrap();
    text
}
