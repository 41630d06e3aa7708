// Prints the listing of a founding and blocks from standard input, over a sorted store of 256 slots with top
// 4,294,967,295 and a trie of 2,047 nodes. Input of more than 65,536 bytes prints only fault 1. Assumes nothing of the
// input.
#![tactic(auto)]

ghost use Rattle.std.specs.Prelude.{IfOk};
ghost use Rattle.list.specs.Shown.{Shown};

use listing::{Line, list_stream, write_lines};
use sorted_store::SortedStore;
use std::alloc::{AllocError, Global};
use std::io::Read;
use terms::{Account, Cause};
use trie_book::TrieBook;

// The longest input that is listed.
const MOST_BYTES: usize = 65_536;

const SLOTS: usize = 256;

const TOP: u32 = 4_294_967_295;

const NODES: usize = 2_047;

// The lines that are printed of an input.
fn lines_of(heap: Global, input: &[u8]) -> Result<Vec<Line>, AllocError>
    ensures { IfOk result (λ v. Shown input.now v.items) }
{
    if input.len() > MOST_BYTES {
        return Ok(vec![in heap; Line::Refused(Cause::TooManyBytes.into())]?);
    }
    let mut slots = vec![in heap; Account::default(); SLOTS]?;
    let book = TrieBook::new(heap, NODES)?;
    let store = SortedStore::new(slots.as_mut_slice(), TOP);
    let listing = list_stream(heap, store, book, input)?;
    Ok(listing.lines)
}

fn run(rt: &HostRuntime) -> anyhow::Result<()> {
    let mut input = Vec::new(rt.alloc());
    // one byte more than the longest that is listed tells that there is too much
    let most = MOST_BYTES as u64 + 1;
    rt.stdin().take(most).read_to_end(&mut input)?;
    let lines = lines_of(rt.alloc(), input.as_slice())?;
    write_lines(rt.alloc(), rt.stdout(), lines.as_slice())?;
    Ok(())
}

fn main(rt: HostRuntime) -> anyhow::Result<()> {
    run(&rt)
}
