// A stream run on a replica: the founding, then the blocks one after another, each checked and, where it passes,
// committed at once.
ghost use Rattle.std.specs.Prelude.{◌≡◌, ℕ, List, ◌++◌, IfOk, MatchResult, OnOk};
ghost use Rattle.listing.specs.Lines.{line_of};
ghost use Rattle.listing.specs.Streams.{Opened, Unopened, BlockTaken, BlocksTaken, Listed, Outcome};

use crate::line::Line;
use crate::standing::{counts, push_state};
use accounts::AccountStore;
use commands::length;
use offers::OfferBook;
use replica::Replica;
use std::alloc::{AllocError, Global};
use terms::Fault;

// The lines of a stream, and apart from them the line of the counts after it, which `list` leaves out.
#[derive(Drop)]
pub struct Listing {
    pub lines: Vec<Line>,
    pub counts: Line,
}

// Founds the replica by the first piece of the stream, and gives the bytes after it.
fn open<'a, S: AccountStore, B: OfferBook>(
    replica: &mut Replica<S, B>,
    bytes: &'a [u8],
) -> Result<&'a [u8], Fault>
    ensures { MatchResult result (λ rest. Opened replica.old bytes.now rest.now replica.new) (λ f. Unopened replica.old bytes.now f replica.new) }
{
    let n = length(bytes)?;
    let (piece, rest) = bytes.split_at(n);
    replica.found(piece)?;
    Ok(rest)
}

// Checks a block and commits it at once, where it passes; the height after it.
fn take_block<S: AccountStore, B: OfferBook>(
    replica: &mut Replica<S, B>,
    bytes: &[u8],
) -> Result<u32, Fault>
    ensures { BlockTaken replica.old bytes.now (line_of result) replica.new }
{
    replica.check(bytes)?.commit(replica)?;
    Ok(replica.height())
}

// Takes block after block, and adds a line for each, until the bytes are used up or no further end can be found.
// The bytes are no list of pieces: how long a piece is, is known only when it is cut off.
fn take_blocks<S: AccountStore, B: OfferBook>(
    replica: &mut Replica<S, B>,
    bytes: &[u8],
    lines: &mut Vec<Line>,
) -> Result<(), AllocError>
    ensures { OnOk result (BlocksTaken replica.old bytes.now lines.old.items lines.new.items replica.new) }
{
    let mut rest = bytes;
    while !rest.is_empty() {
        let n = match length(rest) {
            Ok(n) => n,
            Err(fault) => {
                lines.push(Line::Refused(fault))?;
                return Ok(());
            }
        };
        let (piece, after) = rest.split_at(n);
        lines.push(take_block(replica, piece).into())?;
        rest = after;
    }
    Ok(())
}

// The lines of a stream on a replica that is not founded yet: a line for each piece, and then, where the founding was
// not refused, what the replica holds.
fn run<S: AccountStore, B: OfferBook>(
    heap: Global,
    replica: &mut Replica<S, B>,
    bytes: &[u8],
) -> Result<Vec<Line>, AllocError>
    ensures { IfOk result (λ v. Listed replica.old bytes.now v.items replica.new) }
{
    let mut lines = Vec::new(heap);
    match open(replica, bytes) {
        Ok(rest) => {
            lines.push(Line::Done(replica.height()))?;
            take_blocks(replica, rest, &mut lines)?;
            push_state(replica, &mut lines)?;
            Ok(lines)
        }
        Err(fault) => {
            lines.push(Line::Refused(fault))?;
            Ok(lines)
        }
    }
}

// The listing of a stream on a new replica over this store and this book.
pub fn list_stream<S: AccountStore + Drop, B: OfferBook + Drop>(
    heap: Global,
    store: S,
    book: B,
    bytes: &[u8],
) -> Result<Listing, AllocError>
    ensures { IfOk result (λ x. Outcome (S.store store) (B.book book) bytes.now x.lines.items x.counts) }
{
    let mut replica = Replica::new(store, book);
    let lines = run(heap, &mut replica, bytes)?;
    let counts = counts(&replica);
    Ok(Listing { lines, counts })
}
