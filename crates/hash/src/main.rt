// Prints the SHA-256 digest of standard input, which is hashed as it is read. Assumes nothing.
#![tactic(auto)]

use sha256::{Hasher, hex};
use std::io;
use std::io::{Read, Write};

fn main(rt: HostRuntime) -> io::Result<()> {
    let mut input = rt.stdin();
    let mut hasher = Hasher::new();
    let mut buffer = [0u8; 65536];
    // to the end of the input; a loop with no bound would need leave to wait for threads
    for _ in 0..u64::MAX {
        let n = input.read(&mut buffer)?;
        if n == 0 {
            break;
        }
        hasher.update(&buffer[..n]);
    }
    let mut output = rt.stdout();
    output.write_all(&hex(&hasher.finish()))?;
    println!(output; "")?;
    Ok(())
}
