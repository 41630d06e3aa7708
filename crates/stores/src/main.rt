// Runs a script of commands, one a line, against both account stores and both offer books at once, and prints the
// answers side by side. It starts with room for 256 accounts and 256 offers; `fresh SLOTS TOP` starts again with empty
// stores and books of other sizes. A line that is no command gets a line that says what to write, and the reading goes
// on. Assumes nothing of the input.
#![tactic(auto)]

mod makes;
mod tally;

use hashed_store::{Entry, HashedStore};
use makes::Makes;
use ordered_book::OrderedBook;
use sorted_store::SortedStore;
use std::io::Read;
use std::iter::{Peekable, Zip};
use std::ops::RangeFrom;
use std::str::Lines;
use store_script::{Line, Sizes, parse};
use tally::Tally;
use terms::{Account, Offer};
use trie_book::TrieBook;

// The lines of a script that are still to run, with their numbers. None is kept, and each is read when its turn comes, so a
// script needs no more memory than its text.
type Numbered<'a> = Peekable<Zip<RangeFrom<usize>, Lines<'a>>>;

// The sizes at the start.
const USUAL: Sizes = Sizes {
    slots: 256,
    top: 4_294_967_295,
};

// Runs lines up to the next that starts again, against empty stores and books of these sizes, and gives the sizes for the
// lines that follow.
fn run_part(
    rt: &HostRuntime,
    lines: &mut Numbered<'_>,
    sizes: Sizes,
    tally: &mut Tally,
) -> anyhow::Result<Sizes> {
    let heap = rt.alloc();
    let n = sizes.slots;
    let mut first = vec![in heap; Account::default(); n]?;
    let mut second = vec![in heap; Account::default(); n]?;
    let mut index = vec![in heap; Entry::default(); n.saturating_mul(3)]?;
    let mut slots = vec![in heap; Offer::default(); n]?;
    let mut makes = Makes {
        sorted: SortedStore::new(first.as_mut_slice(), sizes.top),
        hashed: HashedStore::new(second.as_mut_slice(), index.as_mut_slice(), sizes.top),
        ordered: OrderedBook::new(slots.as_mut_slice()),
        trie: TrieBook::new(heap, n.saturating_mul(2).saturating_sub(1))?,
    };
    for (number, line) in lines {
        match parse(line) {
            Ok(Line::Blank) => {}
            Ok(Line::Fresh(next)) => {
                println!(rt; "fresh {next}")?;
                return Ok(next);
            }
            Ok(Line::Command(command)) => tally.add(makes.step(rt, &command)?),
            Err(usage) => println!(rt; "line {number}: {usage}")?,
        }
    }
    Ok(sizes)
}

fn run(rt: &HostRuntime) -> anyhow::Result<()> {
    let heap = rt.alloc();
    let mut input = Vec::new(heap);
    rt.stdin().read_to_end(&mut input)?;
    let text = String::from_utf8_lossy(heap, input.as_slice())?;
    let mut lines = (1..).zip(text.as_str().lines()).peekable();
    let mut tally = Tally::default();
    let mut sizes = USUAL;
    // each part takes one line at least, so that there are no more parts than lines
    for _ in text.as_str().lines() {
        if lines.peek().is_none() {
            break;
        }
        sizes = run_part(rt, &mut lines, sizes, &mut tally)?;
    }
    rt.println(tally)?;
    Ok(())
}

fn main(rt: HostRuntime) -> anyhow::Result<()> {
    run(&rt)
}
