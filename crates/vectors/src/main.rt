// Prints the published SHA-256 test vectors: a name, the message's length in bytes and its digest. Assumes nothing.
#![tactic(auto)]

ghost use Rattle.std.specs.Prelude.{◌≡◌};
ghost use Rattle.vectors.specs.Letters.{letters};
ghost use Rattle.sha256.specs.Digest.{sha256};

use sha256::{Hasher, digest, hex};
use std::io;
use std::io::Write;

const BITS_448: &[u8] = b"abcdbcdecdefdefgefghfghighijhijkijkljklmklmnlmnomnopnopq";

const BITS_896: &[u8] =
    b"abcdefghbcdefghicdefghijdefghijkefghijklfghijklmghijklmnhijklmnoijklmnopjklmnopqklmnopqrlmnopqrsmnopqrstnopqrstu";

// The digest of one million letters a, taken in pieces of 999 and one of 1: pieces that begin and end inside a block.
fn million() -> [u8; 32]
    ensures { result ≡ sha256 (letters 1000000) }
{
    let piece = [b'a'; 999];
    let mut hasher = Hasher::new();
    // the count has a name for the loop's invariant
    for _i in 0..1001usize {
        hasher.update(&piece);
    }
    hasher.update(b"a");
    hasher.finish()
}

// One line: the message's name, its length in bytes and its digest.
fn show(out: &mut impl Write, name: &str, length: usize, digest: [u8; 32]) -> io::Result<()> {
    write!(out, "{name} {length} ")?;
    out.write_all(&hex(&digest))?;
    out.write_all(b"\n")
}

// A message that is hashed at once.
fn show_message(out: &mut impl Write, name: &str, message: &[u8]) -> io::Result<()> {
    match digest(message) {
        Ok(digest) => show(out, name, message.len(), digest),
        Err(_) => out.write_all(b"too long\n"),
    }
}

fn main(rt: HostRuntime) -> io::Result<()> {
    let mut out = rt.stdout();
    show_message(&mut out, "empty", b"")?;
    show_message(&mut out, "abc", b"abc")?;
    show_message(&mut out, "448-bit", BITS_448)?;
    show_message(&mut out, "896-bit", BITS_896)?;
    show(&mut out, "million-a", 1_000_000, million())
}
