// Lines to commands. Assumes nothing of a line.
ghost use Rattle.std.specs.Prelude.{◌≡◌, ◌+◌, min, take, Ok, IfSome, OnSome};
ghost use Rattle.terms.specs.Order.{words};

use crate::ask::{AccountAsk, Ask, OfferAsk};
use crate::operands::Operands;
use crate::words::{AccountVerb, NO_WORD, OfferVerb, Verb, find};
use std::fmt;
use std::str::SplitAsciiWhitespace;
use terms::Key;

// As many slots as a store may be made with here.
const MOST_SLOTS: usize = 100_000;

// A command as it is written and as what it asks.
#[derive(Clone, Copy)]
pub struct Command<'a> {
    pub word: &'a str,
    pub operands: Operands,
    pub ask: Ask,
}

// How many slots the stores and books have, and the highest number that an account may have.
#[derive(Clone, Copy, PartialEq, Eq)]
pub struct Sizes {
    pub slots: usize,
    pub top: u32,
}

#[derive(Drop)]
pub enum Line<'a> {
    // empty, or a remark after #
    Blank,
    // start again, with empty stores and books of these sizes
    Fresh(Sizes),
    Command(Command<'a>),
}

// What to write in place of a line that is no command.
#[derive(Clone, Copy)]
pub struct Usage(pub &'static str);

pub fn parse<'a>(line: &'a str) -> Result<Line<'a>, Usage> {
    let mut words = line.split_ascii_whitespace();
    let Some(first) = words.next() else {
        return Ok(Line::Blank);
    };
    if first.starts_with('#') {
        return Ok(Line::Blank);
    }
    let word = find(first).ok_or(Usage(NO_WORD))?;
    let operands = read_operands(words).ok_or(Usage(word.usage))?;
    line_of(first, word.verb, operands).ok_or(Usage(word.usage))
}

// The words as numbers; none where one is no number of 64 bits, or where there are more than a command may have.
fn read_operands(words: SplitAsciiWhitespace) -> Option<Operands> {
    let mut operands = Operands::default();
    for word in words {
        add_operand(&mut operands, word)?;
    }
    Some(operands)
}

fn add_operand(operands: &mut Operands, word: &str) -> Option<()>
    ensures { OnSome result (operands.new.count ≡ operands.old.count + 1) }
{
    let number = word.parse::<u64>().ok()?;
    operands.push(number)
}

// What a verb and its operands say; none where it does not take such operands.
fn line_of<'a>(word: &'a str, verb: Verb, operands: Operands) -> Option<Line<'a>> {
    let numbers = operands.as_slice();
    let ask = match verb {
        Verb::Fresh => return fresh(numbers),
        Verb::Accounts(v) => Ask::Accounts(account_ask(v, numbers)?),
        Verb::Offers(v) => Ask::Offers(offer_ask(v, numbers)?),
    };
    Some(Line::Command(Command {
        word,
        operands,
        ask,
    }))
}

fn fresh<'a>(numbers: &[u64]) -> Option<Line<'a>> {
    let [slots, top] = numbers else {
        return None;
    };
    let slots = fit::<usize>(slots)?;
    if slots > MOST_SLOTS {
        return None;
    }
    let top = fit(top)?;
    Some(Line::Fresh(Sizes { slots, top }))
}

fn account_ask(verb: AccountVerb, numbers: &[u64]) -> Option<AccountAsk> {
    let ask = match (verb, numbers) {
        (AccountVerb::Open, [number]) => AccountAsk::Open {
            number: fit(number)?,
        },
        (AccountVerb::OpenWith, [number, a, b, c, d, e, f, g, h]) => AccountAsk::OpenWith {
            number: fit(number)?,
            balances: [*a, *b, *c, *d, *e, *f, *g, *h],
        },
        (AccountVerb::SetBalance, [number, asset, value]) => AccountAsk::SetBalance {
            number: fit(number)?,
            asset: fit(asset)?,
            value: *value,
        },
        (AccountVerb::SetFloor, [number, value]) => AccountAsk::SetFloor {
            number: fit(number)?,
            value: fit(value)?,
        },
        (AccountVerb::Stands, [number]) => AccountAsk::Stands {
            number: fit(number)?,
        },
        (AccountVerb::Balance, [number, asset]) => AccountAsk::Balance {
            number: fit(number)?,
            asset: fit(asset)?,
        },
        (AccountVerb::Floor, [number]) => AccountAsk::Floor {
            number: fit(number)?,
        },
        (AccountVerb::Free, [asset]) => AccountAsk::Free { asset: fit(asset)? },
        (AccountVerb::Count, []) => AccountAsk::Count,
        (AccountVerb::Capacity, []) => AccountAsk::Capacity,
        (AccountVerb::Top, []) => AccountAsk::Top,
        (AccountVerb::Next, [number]) => AccountAsk::Next {
            number: fit(number)?,
        },
        _ => return None,
    };
    Some(ask)
}

fn offer_ask(verb: OfferVerb, numbers: &[u64]) -> Option<OfferAsk> {
    let ask = match (verb, numbers) {
        (OfferVerb::Place, [key @ .., units]) => OfferAsk::Place {
            key: key_of(key)?,
            units: *units,
        },
        (OfferVerb::Reduce, [key @ .., units]) => OfferAsk::Reduce {
            key: key_of(key)?,
            units: *units,
        },
        (OfferVerb::Replace, [keys @ .., units]) => {
            let (old, new) = keys.split_at_checked(5)?;
            OfferAsk::Replace {
                old: key_of(old)?,
                new: key_of(new)?,
                units: *units,
            }
        }
        (OfferVerb::Amount, key) => OfferAsk::Amount { key: key_of(key)? },
        (OfferVerb::Offered, [sold]) => OfferAsk::Offered { sold: fit(sold)? },
        (OfferVerb::UpTo, [sold, bought, limit]) => OfferAsk::UpTo {
            sold: fit(sold)?,
            bought: fit(bought)?,
            limit: fit(limit)?,
        },
        (OfferVerb::Count, []) => OfferAsk::Count,
        (OfferVerb::Capacity, []) => OfferAsk::Capacity,
        (OfferVerb::Next, key) => OfferAsk::Next { key: key_of(key)? },
        _ => return None,
    };
    Some(ask)
}

// The key by its five numbers.
fn key_of(numbers: &[u64]) -> Option<Key>
    ensures { IfSome result (λ key. words key ≡ numbers.now) }
{
    let [sold, bought, limit, account, sequence] = numbers else {
        return None;
    };
    Some(Key {
        sold: fit(sold)?,
        bought: fit(bought)?,
        limit: fit(limit)?,
        account: fit(account)?,
        sequence: fit(sequence)?,
    })
}

// The number in a smaller type, if it fits there.
fn fit<T: TryFrom<u64>>(number: &u64) -> Option<T>
where
    T::Error: Drop,
    ensures { IfSome result (λ fitted. T.try_from_gives number.now (Ok fitted)) }
{
    T::try_from(*number).ok()
}

impl fmt::Display for Sizes {
    fn fmt<W: fmt::Write>(&self, f: &mut fmt::Formatter<W>) -> fmt::Result {
        let Sizes { slots, top } = *self;
        write!(f, "{slots} {top}")
    }
}

impl fmt::Display for Usage {
    fn fmt<W: fmt::Write>(&self, f: &mut fmt::Formatter<W>) -> fmt::Result {
        f.write_str(self.0)
    }
}

impl Command<'_> {
    // The numbers after its word.
    pub fn numbers(&self) -> &[u64]
        ensures { result.now ≡ take (min self.now.operands.count 11) self.now.operands.numbers }
    {
        self.operands.as_slice()
    }
}

impl fmt::Display for Command<'_> {
    fn fmt<W: fmt::Write>(&self, f: &mut fmt::Formatter<W>) -> fmt::Result {
        f.write_str(self.word)?;
        for number in self.numbers() {
            write!(f, " {number}")?;
        }
        Ok(())
    }
}
