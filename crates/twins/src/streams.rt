// Two streams cut into their pieces, the founding and the blocks, and the events that they bring to two replicas.
// Assumes nothing of the bytes.
ghost use Rattle.std.specs.Prelude.{◌≡◌, ◌<◌, ◌++◌, length, IfOk, OnOk};
ghost use Rattle.exchange.specs.Life.{Fair};
ghost use Rattle.lives.specs.Events.{event_of};
ghost use Rattle.twins.specs.Paired.{Paired};

use accounts::AccountStore;
use asking::Question;
use commands::length;
use lives::Event;
use offers::OfferBook;
use pairing::{same_block, same_founding};
use replica::Replica;
use std::alloc::{AllocError, Global};
use std::fmt;

// The events of the two streams, one by one: two lists, since each replica takes its own.
#[derive(Drop)]
pub struct Twins<'a> {
    pub first: Vec<Event<'a>>,
    pub second: Vec<Event<'a>>,
}

// A piece of a stream by its number, 0 for the founding, and by the byte of the first stream at which it begins.
#[derive(Clone, Copy)]
pub struct Place {
    piece: u64,
    at: usize,
}

impl Place {
    // Whether the founding lies there.
    fn is_founding(&self) -> bool {
        self.piece == 0
    }

    // Where the next piece begins.
    fn after(self, piece: &[u8]) -> Place {
        Place {
            piece: self.piece.saturating_add(1),
            at: self.at.saturating_add(piece.len()),
        }
    }
}

impl fmt::Display for Place {
    fn fmt<W: fmt::Write>(&self, f: &mut fmt::Formatter<W>) -> fmt::Result {
        let Place { piece, at } = *self;
        if self.is_founding() {
            write!(f, "the founding, at byte {at}")
        } else {
            write!(f, "block {piece}, at byte {at}")
        }
    }
}

// Why two streams are not run.
#[derive(Clone, Copy)]
pub enum Refusal {
    // the piece is not the other's but for the order
    Differs(Place),
    // the first stream has a piece more
    FirstGoesOn(Place),
    // the second stream has a piece more
    SecondGoesOn(Place),
    NoMemory,
}

impl From<AllocError> for Refusal {
    fn from(_: AllocError) -> Refusal {
        Refusal::NoMemory
    }
}

impl fmt::Display for Refusal {
    fn fmt<W: fmt::Write>(&self, f: &mut fmt::Formatter<W>) -> fmt::Result {
        match *self {
            Refusal::Differs(place) => {
                let what = if place.is_founding() {
                    "grants"
                } else {
                    "transactions"
                };
                write!(
                    f,
                    "{place}: the two differ in more than the order of {what}"
                )
            }
            Refusal::FirstGoesOn(place) => write!(f, "{place}: only the first file has it"),
            Refusal::SecondGoesOn(place) => write!(f, "{place}: only the second file has it"),
            Refusal::NoMemory => write!(f, "no memory to run them"),
        }
    }
}

// The first piece of a stream, up to its end, and the bytes after it; all bytes, where there is no end.
fn cut<'a>(bytes: &'a [u8]) -> (&'a [u8], &'a [u8])
    ensures joined { result.0.now ++ result.1.now ≡ bytes.now }
    ensures shorter { 0 < length bytes.now → length result.1.now < length bytes.now }
{
    match length(bytes) {
        Ok(n) => bytes.split_at(n),
        Err(_) => bytes.split_at(bytes.len()),
    }
}

impl<'a> Twins<'a> {
    // One event more on each side.
    #[tactic(auto, using(crate::proofs::Fair::paired_push))]
    fn push(&mut self, event: Event<'a>, other: Event<'a>) -> Result<(), AllocError>
        ensures { OnOk result (Paired self.old.first.items self.old.second.items → Fair (event_of event.entry) (event_of other.entry) → Paired self.new.first.items self.new.second.items) }
    {
        self.first.push(event)?;
        self.second.push(other)?;
        Ok(())
    }

    // A question to both: the digest.
    fn push_digest(&mut self) -> Result<(), AllocError>
        ensures { OnOk result (Paired self.old.first.items self.old.second.items → Paired self.new.first.items self.new.second.items) }
    {
        self.push(Event::Ask(Question::Digest), Event::Ask(Question::Digest))
    }
}

// A founding of each stream, which are the same but for the order of grants.
fn add_founding<'a, S: AccountStore, B: OfferBook>(
    replica: &mut Replica<S, B>,
    twins: &mut Twins<'a>,
    place: Place,
    founding: &'a [u8],
    other: &'a [u8],
) -> Result<(), Refusal>
    ensures { OnOk result (Paired twins.old.first.items twins.old.second.items → Paired twins.new.first.items twins.new.second.items) }
{
    if !same_founding(founding, other) {
        return Err(Refusal::Differs(place));
    }
    let _ = replica.found(founding);
    twins.push(Event::Found(founding), Event::Found(other))?;
    twins.push_digest()?;
    Ok(())
}

// A commit on each side of the block that was checked last.
fn add_commit<'a>(twins: &mut Twins<'a>, number: usize) -> Result<(), AllocError>
    ensures { OnOk result (Paired twins.old.first.items twins.old.second.items → Paired twins.new.first.items twins.new.second.items) }
{
    twins.push(Event::Commit(number), Event::Commit(number))?;
    twins.push_digest()
}

// A check of a block of each stream, which are the same but for the order of transactions, and, where it passes on the
// replica, its commit.
fn add_block<'a, S: AccountStore, B: OfferBook>(
    replica: &mut Replica<S, B>,
    twins: &mut Twins<'a>,
    place: Place,
    block: &'a [u8],
    other: &'a [u8],
) -> Result<(), Refusal>
    ensures { OnOk result (Paired twins.old.first.items twins.old.second.items → Paired twins.new.first.items twins.new.second.items) }
{
    if !same_block(block, other) {
        return Err(Refusal::Differs(place));
    }
    twins.push(Event::Check(block), Event::Check(other))?;
    let number = replica.passed() as usize;
    if let Ok(checked) = replica.check(block) {
        let _ = checked.commit(replica);
        add_commit(twins, number)?;
    }
    Ok(())
}

// One piece of each stream after the other, until both are used up.
fn add_pieces<'a, S: AccountStore, B: OfferBook>(
    replica: &mut Replica<S, B>,
    twins: &mut Twins<'a>,
    first: &'a [u8],
    second: &'a [u8],
) -> Result<(), Refusal>
    ensures { OnOk result (Paired twins.old.first.items twins.old.second.items → Paired twins.new.first.items twins.new.second.items) }
{
    // where a piece ends is known only when it is cut off
    let mut one = first;
    let mut other = second;
    let mut place = Place { piece: 0, at: 0 };
    while one.len() > 0 && other.len() > 0 {
        let (head, rest) = cut(one);
        let (other_head, other_rest) = cut(other);
        if place.is_founding() {
            add_founding(replica, twins, place, head, other_head)?;
        } else {
            add_block(replica, twins, place, head, other_head)?;
        }
        one = rest;
        other = other_rest;
        place = place.after(head);
    }
    match (one, other) {
        ([], []) => Ok(()),
        ([], _) => Err(Refusal::SecondGoesOn(place)),
        (_, _) => Err(Refusal::FirstGoesOn(place)),
    }
}

// The events of two streams, of which a replica over this store and this book tells what passes in the first.
pub fn pair_events<'a, S: AccountStore + Drop, B: OfferBook + Drop>(
    heap: Global,
    store: S,
    book: B,
    first: &'a [u8],
    second: &'a [u8],
) -> Result<Twins<'a>, Refusal>
    ensures { IfOk result (λ t. Paired t.first.items t.second.items) }
{
    let mut replica = Replica::new(store, book);
    let mut twins = Twins {
        first: Vec::new(heap),
        second: Vec::new(heap),
    };
    add_pieces(&mut replica, &mut twins, first, second)?;
    Ok(twins)
}
