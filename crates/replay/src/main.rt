// Replays a founding and blocks from a file of any size on a replica of chosen make and size, and prints the listing
// and the counts. Wrong arguments and files that cannot be read get a message on standard error and status 1. Assumes
// nothing of the arguments or of the file.
#![tactic(auto)]

mod arguments;
mod replaying;
mod settings;

use arguments::{Arguments, HELP, Slip, USAGE, asks_help, parse};
use listing::{Listing, write_lines};
use programs::{Failure, end, read_file, words};
use replaying::replay;
use std::alloc::AllocError;
use std::process::ExitCode;
use std::{fmt, io};

// Why there is no listing.
#[derive(Drop)]
enum NoListing<'a> {
    Failed(Failure<'a>),
    Slipped(Slip<'a>),
    // the listing cannot be written
    Unwritten,
}

impl<'a> From<Failure<'a>> for NoListing<'a> {
    fn from(failure: Failure<'a>) -> Self {
        NoListing::Failed(failure)
    }
}

impl<'a> From<AllocError> for NoListing<'a> {
    fn from(_: AllocError) -> Self {
        NoListing::Failed(Failure::NoMemory)
    }
}

impl<'a> From<Slip<'a>> for NoListing<'a> {
    fn from(slip: Slip<'a>) -> Self {
        NoListing::Slipped(slip)
    }
}

impl<'a> From<io::Error> for NoListing<'a> {
    fn from(_: io::Error) -> Self {
        NoListing::Unwritten
    }
}

impl<'a> fmt::Display for NoListing<'a> {
    fn fmt<W: fmt::Write>(&self, f: &mut fmt::Formatter<W>) -> fmt::Result {
        write!(f, "replay: ")?;
        match self {
            NoListing::Failed(failure) => write!(f, "{failure}"),
            NoListing::Slipped(slip) => write!(f, "{slip}\n{USAGE}"),
            NoListing::Unwritten => write!(f, "the listing cannot be written"),
        }
    }
}

// Replays the file, and prints the listing and the counts.
fn replay_file<'a>(rt: &HostRuntime, arguments: Arguments<'a>) -> Result<(), NoListing<'a>> {
    let Arguments { file, settings } = arguments;
    let bytes = read_file(
        rt,
        file,
        "a file that you may read, with a founding and blocks",
    )?;
    let Listing { lines, counts } = replay(rt.alloc(), settings, bytes.as_slice())?;
    // the counts follow also where not every line was taken, as by an output that takes nothing for a while
    let listed = write_lines(rt.alloc(), rt.stdout(), lines.as_slice());
    let counted = write_lines(rt.alloc(), rt.stdout(), &[counts]);
    Ok(listed.and(counted)?)
}

fn run<'a>(rt: &HostRuntime, words: &'a [String]) -> Result<ExitCode, NoListing<'a>> {
    if asks_help(words) {
        let _ = println!(rt; "{USAGE}\n{HELP}");
    } else {
        replay_file(rt, parse(words)?)?;
    }
    Ok(ExitCode::SUCCESS)
}

fn main(rt: HostRuntime) -> ExitCode {
    match words(&rt) {
        Ok(words) => end(&rt, run(&rt, words.as_slice())),
        Err(failure) => end(&rt, Err(NoListing::from(failure))),
    }
}
