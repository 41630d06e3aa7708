// Reading one command at a place of the bytes.
ghost use Rattle.std.specs.Prelude.{◌≡◌, ◌+◌, ◌≤◌, true, length, slice_index, IfOk};
ghost use Rattle.std.specs.List.{between};
ghost use Rattle.terms.specs.Bytes.{field};
ghost use Rattle.commands.specs.Format.{whole, command_at, outcome, cut, skipped, begin_at, price_at, volume_at, create_at, pay_at, place_at, cancel_at, found_at};
ghost use Rattle.commands.specs.Kinds.{letter_of};
ghost use Rattle.commands.specs.Shown.{shown, told, skipped_to, spanned_to};

use crate::command::{Command, Reading};
use crate::kind::Kind;
use crate::ranges::in_range;
use terms::{Cause, Fault};

// The N bytes at a place.
fn part<const N: usize>(bytes: &[u8], at: usize) -> &[u8; N]
    requires { at + N ≤ length bytes.now }
    ensures { result.now ≡ between at (at + N) bytes.now }
{
    bytes[at..at + N].first_chunk::<N>().unwrap()
}

// The number in the four bytes at a place.
fn word(bytes: &[u8], at: usize) -> u32
    requires { at + 4 ≤ length bytes.now }
    ensures { result ≡ field 4 bytes.now at }
{
    u32::from_be_bytes(*part(bytes, at))
}

// The number in the eight bytes at a place.
pub(crate) fn long(bytes: &[u8], at: usize) -> u64
    requires { at + 8 ≤ length bytes.now }
    ensures { result ≡ field 8 bytes.now at }
{
    u64::from_be_bytes(*part(bytes, at))
}

fn begin<'a>(bytes: &'a [u8], at: usize) -> Command<'a>
    requires { at + 37 ≤ length bytes.now }
    ensures { shown result ≡ begin_at bytes.now at }
{
    Command::Begin {
        height: word(bytes, at + 1),
        parent: part(bytes, at + 5),
    }
}

fn price<'a>(bytes: &'a [u8], at: usize) -> Command<'a>
    requires { at + 6 ≤ length bytes.now }
    ensures { shown result ≡ price_at bytes.now at }
{
    Command::Price {
        asset: bytes[at + 1],
        price: word(bytes, at + 2),
    }
}

fn volume<'a>(bytes: &'a [u8], at: usize) -> Command<'a>
    requires { at + 11 ≤ length bytes.now }
    ensures { shown result ≡ volume_at bytes.now at }
{
    Command::Volume {
        sold: bytes[at + 1],
        bought: bytes[at + 2],
        amount: long(bytes, at + 3),
    }
}

fn create<'a>(bytes: &'a [u8], at: usize) -> Command<'a>
    requires { at + 13 ≤ length bytes.now }
    ensures { shown result ≡ create_at bytes.now at }
{
    Command::Create {
        source: word(bytes, at + 1),
        sequence: word(bytes, at + 5),
        account: word(bytes, at + 9),
    }
}

fn pay<'a>(bytes: &'a [u8], at: usize) -> Command<'a>
    requires { at + 38 ≤ length bytes.now }
    ensures { shown result ≡ pay_at bytes.now at }
{
    let source = word(bytes, at + 1);
    let sequence = word(bytes, at + 5);
    let receiver = word(bytes, at + 9);
    let asset = bytes[at + 13];
    let amount = long(bytes, at + 14);
    let memo = part(bytes, at + 22);
    Command::Pay {
        source,
        sequence,
        receiver,
        asset,
        amount,
        memo,
    }
}

fn place<'a>(bytes: &'a [u8], at: usize) -> Command<'a>
    requires { at + 23 ≤ length bytes.now }
    ensures { shown result ≡ place_at bytes.now at }
{
    let source = word(bytes, at + 1);
    let sequence = word(bytes, at + 5);
    let sold = bytes[at + 9];
    let bought = bytes[at + 10];
    let limit = word(bytes, at + 11);
    let amount = long(bytes, at + 15);
    Command::Place {
        source,
        sequence,
        sold,
        bought,
        limit,
        amount,
    }
}

fn cancel<'a>(bytes: &'a [u8], at: usize) -> Command<'a>
    requires { at + 19 ≤ length bytes.now }
    ensures { shown result ≡ cancel_at bytes.now at }
{
    let source = word(bytes, at + 1);
    let sequence = word(bytes, at + 5);
    let sold = bytes[at + 9];
    let bought = bytes[at + 10];
    let limit = word(bytes, at + 11);
    let offer = word(bytes, at + 15);
    Command::Cancel {
        source,
        sequence,
        sold,
        bought,
        limit,
        offer,
    }
}

fn found<'a>(bytes: &'a [u8], at: usize) -> Command<'a>
    requires { at + 69 ≤ length bytes.now }
    ensures { shown result ≡ found_at bytes.now at }
{
    Command::Found {
        account: word(bytes, at + 1),
        balances: part(bytes, at + 5),
    }
}

// The command of a kind whose letter and bytes are there.
fn operands<'a>(kind: Kind, bytes: &'a [u8], at: usize) -> Command<'a>
    requires whole { whole bytes.now at ≡ true }
    requires letter { letter_of kind ≡ slice_index bytes.now at }
    ensures { shown result ≡ command_at bytes.now at }
{
    match kind {
        Kind::Begin => begin(bytes, at),
        Kind::Price => price(bytes, at),
        Kind::Volume => volume(bytes, at),
        Kind::Create => create(bytes, at),
        Kind::Pay => pay(bytes, at),
        Kind::Place => place(bytes, at),
        Kind::Cancel => cancel(bytes, at),
        Kind::Found => found(bytes, at),
        Kind::End => Command::End,
    }
}

// The kind of the command at a place, all of whose bytes are there, and the place after it.
pub(crate) fn span(bytes: &[u8], at: usize) -> Result<(Kind, usize), Fault>
    ensures place { spanned_to result ≡ skipped bytes.now at }
    ensures kind { IfOk result (λ s. letter_of s.0 ≡ slice_index bytes.now at) }
{
    if at >= bytes.len() {
        return Err(Cause::Unfinished.at_byte(at));
    }
    let kind = Kind::try_from(bytes[at]).map_err(|cause| cause.at_byte(at))?;
    if bytes.len() - at < kind.width() {
        return Err(Cause::Unfinished.at_byte(at));
    }
    Ok((kind, at + kind.width()))
}

// The place after the command at a place, of which only the letter and the width are looked at.
pub fn skip(bytes: &[u8], at: usize) -> Result<usize, Fault>
    ensures { skipped_to result ≡ skipped bytes.now at }
{
    let (_, next) = span(bytes, at)?;
    Ok(next)
}

// The command at a place, whatever its operands, and the place after it.
pub fn parse<'a>(bytes: &'a [u8], at: usize) -> Result<Reading<'a>, Fault>
    ensures { told result ≡ cut bytes.now at }
{
    let (kind, next) = span(bytes, at)?;
    Ok(Reading {
        command: operands(kind, bytes, at),
        next,
    })
}

// The command at a place and the place after it; or fault 3, no letter of a command stands there; 2, the bytes end before
// the letter or in the command; 5, an operand is out of range.
pub fn read<'a>(bytes: &'a [u8], at: usize) -> Result<Reading<'a>, Fault>
    ensures { told result ≡ outcome bytes.now at }
{
    let reading = parse(bytes, at)?;
    if !in_range(&reading.command) {
        return Err(Cause::OutOfRange.at_byte(at));
    }
    Ok(reading)
}
