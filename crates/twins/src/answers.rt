// Events and the answers of two replicas, a line for each. What is written is tested, not proved.
use asking::Reply;
use lives::{Answer, Event, Pair, Stop};
use std::alloc::Global;
use std::io::{BufWriter, Write};
use std::{fmt, io};
use terms::Hex;

// A reply as it is printed by this program: a Display stands with its type or its trait.
#[derive(Clone, Copy)]
struct Replied(Reply);

impl fmt::Display for Replied {
    fn fmt<W: fmt::Write>(&self, f: &mut fmt::Formatter<W>) -> fmt::Result {
        match self.0 {
            Reply::Number(n) => write!(f, "{n}"),
            Reply::Digest(digest) => {
                let digest = Hex(digest.as_slice());
                write!(f, "{digest}")
            }
            Reply::Account(Some(number)) => write!(f, "{number}"),
            Reply::Offer(Some(key)) => write!(f, "{key}"),
            Reply::Account(None) | Reply::Offer(None) => write!(f, "none"),
        }
    }
}

// An answer as it is printed, or that there was none.
#[derive(Clone, Copy)]
struct Answered(Option<Answer>);

impl fmt::Display for Answered {
    fn fmt<W: fmt::Write>(&self, f: &mut fmt::Formatter<W>) -> fmt::Result {
        match self.0 {
            None => write!(f, "no answer"),
            Some(Answer::Done) => write!(f, "done"),
            Some(Answer::Refused(fault)) => write!(f, "N {fault}"),
            Some(Answer::Checked(_)) => write!(f, "passed"),
            Some(Answer::Filled(sold, paid)) => write!(f, "sold {sold}, paid {paid}"),
            Some(Answer::Told(reply)) => write!(f, "{}", Replied(reply)),
        }
    }
}

// What an event is, with the number of its block.
#[derive(Clone, Copy)]
struct Named<'a> {
    event: Event<'a>,
    block: u64,
}

impl<'a> fmt::Display for Named<'a> {
    fn fmt<W: fmt::Write>(&self, f: &mut fmt::Formatter<W>) -> fmt::Result {
        let block = self.block;
        match self.event {
            Event::Found(_) => write!(f, "found"),
            Event::Check(_) => write!(f, "check {block}"),
            Event::Fill(_, _) => write!(f, "fill {block}"),
            Event::Commit(_) => write!(f, "commit {block}"),
            Event::Reject(_) => write!(f, "reject {block}"),
            Event::Ask(_) => write!(f, "digest"),
        }
    }
}

// What came of two runs: equal answers to so many events; answers that differ, first at the event of this number; or a
// run that stopped for want of memory.
#[derive(Clone, Copy, PartialEq, Eq)]
pub enum Verdict {
    Agree(usize),
    Differ(usize),
    NoMemory,
}

impl Verdict {
    // On runs over so many events. Two that both answered the same events, and alike, agree.
    fn of(events: usize, pair: &Pair) -> Verdict {
        let stops = [pair.first.stop, pair.second.stop];
        if stops.contains(&Err(Stop::NoMemory)) {
            return Verdict::NoMemory;
        }
        let answers = pair.first.answers.iter().zip(pair.second.answers.iter());
        let equal = answers.take_while(|(one, other)| *one == *other).count();
        if equal < events {
            Verdict::Differ(equal.saturating_add(1))
        } else {
            Verdict::Agree(events)
        }
    }
}

impl fmt::Display for Verdict {
    fn fmt<W: fmt::Write>(&self, f: &mut fmt::Formatter<W>) -> fmt::Result {
        match *self {
            Verdict::Agree(count) => write!(
                f,
                "The two agree: {count} events, equal answers to each."
            ),
            Verdict::Differ(n) => write!(f, "The two differ, first at event {n}."),
            Verdict::NoMemory => write!(f, "The run stopped for want of memory."),
        }
    }
}

// A line for each event.
fn print_answers<W: Write>(
    output: &mut W,
    events: &[Event<'_>],
    first: &[Answer],
    second: &[Answer],
) -> io::Result<()> {
    let mut block = 0u64;
    for (i, event) in events.iter().enumerate() {
        let event = *event;
        if let Event::Check(_) = event {
            block = block.saturating_add(1);
        }
        let name = Named { event, block };
        let one = Answered(first.get(i).copied());
        let other = Answered(second.get(i).copied());
        writeln!(output, "{name}: {one} | {other}")?;
    }
    Ok(())
}

// Prints the answers of both runs and whether they agree, which it tells too.
pub fn print_runs<W: Write + Drop>(
    alloc: Global,
    output: W,
    events: &[Event<'_>],
    pair: &Pair,
) -> io::Result<Verdict> {
    let mut buffer = BufWriter::new(alloc, output)?;
    print_answers(
        &mut buffer,
        events,
        pair.first.answers.as_slice(),
        pair.second.answers.as_slice(),
    )?;
    let verdict = Verdict::of(events.len(), pair);
    writeln!(buffer, "{verdict}")?;
    buffer.flush()?;
    Ok(verdict)
}
