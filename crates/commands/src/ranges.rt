// Whether a command's operands are in range.
ghost use Rattle.std.specs.Prelude.{◌≡◌};
ghost use Rattle.terms.specs.Ranges.{is_price, is_word, is_number};
ghost use Rattle.commands.specs.Format.{balances as balances_at, fit};
ghost use Rattle.commands.specs.Shown.{shown};

use crate::command::Command;
use crate::parser::long;
use std::array;
use terms::{are_balances, is_amount, is_pair};

// The highest price, 2^24 - 1.
const MAX_PRICE: u32 = 16_777_215;

fn is_price(price: u32) -> bool
    ensures { result ≡ is_price price }
{
    price > 0 && price <= MAX_PRICE
}

// The eight balances of a grant, from its bytes.
pub fn eight_balances(bytes: &[u8; 64]) -> [u64; 8]
    ensures { result ≡ balances_at bytes.now 0 }
{
    array::from_fn(|i| long(bytes, 8 * i))
}

// A number of 32 bits is one. That is known only of a number that is read, so each is passed here.
fn is_word(number: u32) -> bool
    ensures { result ≡ is_word number }
{
    true
}

// An account number or a limit.
fn is_number(number: u32) -> bool
    ensures { result ≡ is_number number }
{
    number > 0
}

// Whether all operands of the command are in range. It is looked at where it lies, since a copy costs more than the test.
pub fn in_range(command: &Command) -> bool
    ensures { result ≡ fit (shown command.now) }
{
    match *command {
        Command::Begin { height, .. } => is_word(height),
        Command::Price { asset, price } => asset < 8 && is_price(price),
        Command::Volume {
            sold,
            bought,
            amount,
        } => is_pair(sold, bought) && is_amount(amount),
        Command::Create {
            source,
            sequence,
            account,
        } => is_number(source) && is_word(sequence) && is_number(account),
        Command::Pay {
            source,
            sequence,
            receiver,
            asset,
            amount,
            ..
        } => {
            is_number(source)
                && is_word(sequence)
                && is_number(receiver)
                && asset < 8
                && is_amount(amount)
        }
        Command::Place {
            source,
            sequence,
            sold,
            bought,
            limit,
            amount,
        } => {
            is_number(source)
                && is_word(sequence)
                && is_pair(sold, bought)
                && is_number(limit)
                && is_amount(amount)
        }
        Command::Cancel {
            source,
            sequence,
            sold,
            bought,
            limit,
            offer,
        } => {
            is_number(source)
                && is_word(sequence)
                && is_pair(sold, bought)
                && is_number(limit)
                && is_word(offer)
        }
        Command::Found { account, balances } => is_number(account)
            && are_balances(&eight_balances(balances)),
        Command::End => true,
    }
}
