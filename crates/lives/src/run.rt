// One replica run over a list of events, with the checked blocks that it holds. Assumes nothing: a run stops at an event
// that names a block that is not held, and where memory for the answers or the held blocks runs out. No memory is asked
// for inside the replica.
ghost use Rattle.std.specs.Prelude.{◌≡◌, [], map, slice_index_or, slice_set, None, Ok};
ghost use Rattle.terms.specs.Holdings.{Store, Book};
ghost use Rattle.exchange.specs.State.{newborn};
ghost use Rattle.exchange.specs.Life.Event.{found, check, fill, commit, reject};
ghost use Rattle.lives.specs.Events.{event_of, answer_of};
ghost use Rattle.lives.specs.Law.{Ran, Law};
ghost use Rattle.lives.specs.Steps.{StepOr, Over};

use crate::events::{Answer, Event, Stop};
use accounts::AccountStore;
use asking::ask;
use offers::OfferBook;
use replica::{CheckedBlock, Replica};
use std::alloc::Global;
use terms::Key;

// A replica and the checked blocks that it has let pass, in the order of their checks: None where one is spent.
struct Run<'a, S: AccountStore, B: OfferBook> {
    replica: Replica<S, B>,
    held: Vec<Option<CheckedBlock<'a>>>,
}

impl<'a, S: AccountStore + Drop, B: OfferBook + Drop> Run<'a, S, B> {
    fn found(&mut self, bytes: &[u8]) -> Answer
        ensures { StepOr self.old.replica self.old.held.items (found bytes.now) self.new.replica self.new.held.items (Ok result) }
    {
        self.replica.found(bytes).into()
    }

    // A block that passes is held under the number of those before it.
    fn check(&mut self, bytes: &'a [u8]) -> Result<Answer, Stop>
        ensures { StepOr self.old.replica self.old.held.items (check bytes.now) self.new.replica self.new.held.items result }
    {
        let number = self.held.len();
        match self.replica.check(bytes) {
            Err(fault) => Ok(Answer::Refused(fault)),
            Ok(block) => match self.held.push(Some(block)) {
                Ok(()) => Ok(Answer::Checked(number)),
                Err(back) => {
                    reject_if_held(&mut self.replica, back.value);
                    Err(Stop::NoMemory)
                }
            },
        }
    }

    fn fill(&self, block: usize, key: Key) -> Result<Answer, Stop>
        ensures { StepOr self.now.replica self.now.held.items (fill block key) self.now.replica self.now.held.items result }
    {
        let Some(Some(checked)) = self.held.get(block) else {
            return Err(Stop::NotHeld);
        };
        match checked.fill(&self.replica, key) {
            Ok((sold, paid)) => Ok(Answer::Filled(sold, paid)),
            Err(fault) => Ok(Answer::Refused(fault)),
        }
    }

    fn commit(&mut self, block: usize) -> Result<Answer, Stop>
        ensures { StepOr self.old.replica self.old.held.items (commit block) self.new.replica self.new.held.items result }
    {
        let checked = take(&mut self.held, block).ok_or(Stop::NotHeld)?;
        Ok(checked.commit(&mut self.replica).into())
    }

    fn reject(&mut self, block: usize) -> Result<Answer, Stop>
        ensures { StepOr self.old.replica self.old.held.items (reject block) self.new.replica self.new.held.items result }
    {
        let checked = take(&mut self.held, block).ok_or(Stop::NotHeld)?;
        checked.reject(&mut self.replica);
        Ok(Answer::Done)
    }

    // One event.
    fn step(&mut self, event: Event<'a>) -> Result<Answer, Stop>
        ensures { StepOr self.old.replica self.old.held.items (event_of event.entry) self.new.replica self.new.held.items result }
    {
        match event {
            Event::Found(bytes) => Ok(self.found(bytes)),
            Event::Check(bytes) => self.check(bytes),
            Event::Fill(block, key) => self.fill(block, key),
            Event::Commit(block) => self.commit(block),
            Event::Reject(block) => self.reject(block),
            Event::Ask(question) => Ok(Answer::Told(ask(&self.replica, question))),
        }
    }

    // Runs the events in turn, and adds an answer for each.
    fn go_on(&mut self, events: &[Event<'a>], answers: &mut Vec<Answer>) -> Result<(), Stop>
        ensures { (st : Store) (bk : Book)
            → self.old.replica ≡ newborn st bk → self.old.held.items ≡ [] → answers.old.items ≡ []
            → Over st bk (map event_of events.now) (map answer_of answers.new.items) result }
    {
        for event in events {
            let answer = self.step(*event)?;
            answers.push(answer)?;
        }
        Ok(())
    }

    // Rejects what is still held.
    fn finish(self) {
        let Run {
            mut replica,
            mut held,
        } = self;
        // a `for` over the blocks would have to be able to let them go
        while let Some(slot) = held.pop() {
            reject_if_held(&mut replica, slot);
        }
        held.destroy_empty();
    }
}

// Takes out the checked block at a place, if one is held there.
fn take<'a>(held: &mut Vec<Option<CheckedBlock<'a>>>, block: usize) -> Option<CheckedBlock<'a>>
    ensures taken { result ≡ slice_index_or held.old.items block None }
    ensures left { held.new.items ≡ slice_set held.old.items block None }
{
    held.get_mut(block)?.take()
}

// Rejects the checked block, if there is one.
fn reject_if_held<S: AccountStore, B: OfferBook>(
    replica: &mut Replica<S, B>,
    slot: Option<CheckedBlock<'_>>,
) {
    if let Some(block) = slot {
        block.reject(replica);
    }
}

// The answers of a run, and whether it stopped before the last event.
#[derive(Drop)]
pub struct Record {
    pub answers: Vec<Answer>,
    pub stop: Result<(), Stop>,
}

// Puts a replica together from a store and a book, and runs the events on it. What it still holds at the end is rejected.
pub fn live<'a, S: AccountStore + Drop, B: OfferBook + Drop>(
    heap: Global,
    store: S,
    book: B,
    events: &[Event<'a>],
) -> Record
    ensures { Ran (S.store store) (B.book book) (map event_of events.now) (map answer_of result.answers.items) result.stop }
{
    let mut run = Run {
        replica: Replica::new(store, book),
        held: Vec::new(heap),
    };
    let mut answers = Vec::new(heap);
    let stop = run.go_on(events, &mut answers);
    run.finish();
    Record { answers, stop }
}

// The law of two replicas. Puts two replicas of any makes together, each from its own store and book, and runs its events
// on each; what it still holds at the end is rejected.
pub fn live_twice<
    'a,
    S1: AccountStore + Drop,
    B1: OfferBook + Drop,
    S2: AccountStore + Drop,
    B2: OfferBook + Drop,
>(
    heap: Global,
    first_store: S1,
    first_book: B1,
    second_store: S2,
    second_book: B2,
    events: &[Event<'a>],
    others: &[Event<'a>],
) -> Pair
    ensures { Law (S1.store first_store) (B1.book first_book) (S2.store second_store) (B2.book second_book) (map event_of events.now) (map event_of others.now) (map answer_of result.first.answers.items) (map answer_of result.second.answers.items) result.first.stop result.second.stop }
{
    let first = live(heap, first_store, first_book, events);
    let second = live(heap, second_store, second_book, others);
    Pair { first, second }
}

// The runs of two replicas.
#[derive(Drop)]
pub struct Pair {
    pub first: Record,
    pub second: Record,
}
