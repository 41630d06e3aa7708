// Runs two laboratories' streams side by side, each on a replica of another make, and prints their answers: a sorted
// store and a trie for the first, a hashed store and an ordered book for the second. Streams that differ in more than
// the order of transactions within a block and of grants within the founding are refused. Assumes nothing of the files.
#![tactic(auto)]

ghost use Rattle.std.specs.Prelude.{map, IfOk};
ghost use Rattle.lives.specs.Events.{answer_of};
ghost use Rattle.twins.specs.Paired.{Paired, Agreed};

mod answers;
mod streams;

use answers::{Verdict, print_runs};
use hashed_store::{Entry, HashedStore};
use lives::{Pair, live_twice};
use ordered_book::OrderedBook;
use programs::{Failure, end, read_file, words};
use sorted_store::SortedStore;
use std::alloc::{AllocError, Global};
use std::process::ExitCode;
use std::{fmt, io};
use streams::{Refusal, Twins, pair_events};
use terms::{Account, Offer};
use trie_book::TrieBook;

const USAGE: &str = "usage: twins FIRST SECOND";

const HELP: &str =
    "runs two files, each with a founding and blocks, side by side, and prints what two replicas of different make
answer; the files may differ in the order of grants and of transactions within a block, and in memos";

// What to name in place of a file that cannot be read.
const WANTED: &str = "two files that you may read, each with a founding and blocks";

const SLOTS: usize = 256;

const INDEX: usize = 768;

const TOP: u32 = 4_294_967_295;

const NODES: usize = 2_047;

const OFFERS: usize = 1_024;

// The events of the two streams, which a first run of the first stream gives.
fn events<'a>(heap: Global, first: &'a [u8], second: &'a [u8]) -> Result<Twins<'a>, Refusal>
    ensures { IfOk result (λ t. Paired t.first.items t.second.items) }
{
    let mut slots = vec![in heap; Account::default(); SLOTS]?;
    let store = SortedStore::new(slots.as_mut_slice(), TOP);
    let book = TrieBook::new(heap, NODES)?;
    pair_events(heap, store, book, first, second)
}

// Both runs. Where the events are those of two streams that are the same but for the order, the runs agree.
fn run_twins(heap: Global, twins: &Twins<'_>) -> Result<Pair, AllocError>
    ensures { IfOk result (λ p. Paired twins.now.first.items twins.now.second.items → Agreed (map answer_of p.first.answers.items) (map answer_of p.second.answers.items) p.first.stop p.second.stop) }
{
    let mut slots = vec![in heap; Account::default(); SLOTS]?;
    let mut other_slots = vec![in heap; Account::default(); SLOTS]?;
    let mut index = vec![in heap; Entry::default(); INDEX]?;
    let mut offers = vec![in heap; Offer::default(); OFFERS]?;
    let trie = TrieBook::new(heap, NODES)?;
    Ok(live_twice(
        heap,
        SortedStore::new(slots.as_mut_slice(), TOP),
        trie,
        HashedStore::new(other_slots.as_mut_slice(), index.as_mut_slice(), TOP),
        OrderedBook::new(offers.as_mut_slice()),
        twins.first.as_slice(),
        twins.second.as_slice(),
    ))
}

// Two streams that are the same but for the order: their events, and both runs.
#[derive(Drop)]
struct Runs<'a> {
    twins: Twins<'a>,
    pair: Pair,
}

// Runs two streams side by side, or says why not. Where they are run, the runs agree.
fn run_streams<'a>(heap: Global, first: &'a [u8], second: &'a [u8]) -> Result<Runs<'a>, Refusal>
    ensures { IfOk result (λ x. Agreed (map answer_of x.pair.first.answers.items) (map answer_of x.pair.second.answers.items) x.pair.first.stop x.pair.second.stop) }
{
    let twins = events(heap, first, second)?;
    let pair = run_twins(heap, &twins)?;
    Ok(Runs { twins, pair })
}

// Why the two files are not run, or their answers not shown.
#[derive(Drop)]
enum NotRun<'a> {
    Failed(Failure<'a>),
    Refused(Refusal),
    // the words name no two files
    Usage,
    // the answers cannot be written
    Unwritten,
}

impl<'a> From<Failure<'a>> for NotRun<'a> {
    fn from(failure: Failure<'a>) -> Self {
        NotRun::Failed(failure)
    }
}

impl<'a> From<Refusal> for NotRun<'a> {
    fn from(refusal: Refusal) -> Self {
        NotRun::Refused(refusal)
    }
}

impl<'a> From<io::Error> for NotRun<'a> {
    fn from(_: io::Error) -> Self {
        NotRun::Unwritten
    }
}

impl<'a> fmt::Display for NotRun<'a> {
    fn fmt<W: fmt::Write>(&self, f: &mut fmt::Formatter<W>) -> fmt::Result {
        match self {
            NotRun::Failed(failure) => write!(f, "twins: {failure}"),
            NotRun::Refused(refusal) => write!(f, "twins: {refusal}"),
            NotRun::Usage => write!(f, "{USAGE}"),
            NotRun::Unwritten => write!(f, "twins: the answers cannot be written"),
        }
    }
}

// Runs the two files side by side, prints the answers, and tells whether they agree.
fn run_files<'a>(rt: &HostRuntime, first: &'a str, second: &'a str) -> Result<Verdict, NotRun<'a>> {
    let one = read_file(rt, first, WANTED)?;
    let other = read_file(rt, second, WANTED)?;
    let Runs { twins, pair } = run_streams(rt.alloc(), one.as_slice(), other.as_slice())?;
    Ok(print_runs(rt.alloc(), rt.stdout(), twins.first.as_slice(), &pair)?)
}

// Gives status 0 where the streams agree, and 1 otherwise.
fn run<'a>(rt: &HostRuntime, words: &'a [String]) -> Result<ExitCode, NotRun<'a>> {
    match words {
        [word] if word.as_str() == "--help" => {
            let _ = println!(rt; "{USAGE}\n{HELP}");
            Ok(ExitCode::SUCCESS)
        }
        [first, second] => match run_files(rt, first.as_str(), second.as_str())? {
            Verdict::Agree(_) => Ok(ExitCode::SUCCESS),
            Verdict::Differ(_) | Verdict::NoMemory => Ok(ExitCode::FAILURE),
        },
        _ => Err(NotRun::Usage),
    }
}

fn main(rt: HostRuntime) -> ExitCode {
    match words(&rt) {
        Ok(words) => end(&rt, run(&rt, words.as_slice())),
        Err(failure) => end(&rt, Err(NotRun::from(failure))),
    }
}
