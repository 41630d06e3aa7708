// A block in the making: what the commands so far have said of it.
ghost use Rattle.std.specs.Prelude.{◌≡◌, ◌+◌, ◌<◌, ◌≤◌, length, MatchResult};
ghost use Rattle.std.specs.Option.{option_to_list};
ghost use Rattle.arrayvec.specs.ArrayVec.{array_vec_len};
ghost use Rattle.terms.specs.declared.causes.Cause.TheVariants.{TooManyTransactions};
ghost use Rattle.blocks.specs.Readable.{transactions};
ghost use Rattle.commands.specs.Shown.{shown};
ghost use Rattle.blocks.specs.Drafts.{Room, added, blank};

use crate::drafted::Draft;
use arrayvec::ArrayVec;
use commands::Command;
use terms::{Action, Cause, Transaction, Volume};

// The transaction that a command is, if it is one.
fn transaction_of(command: Command) -> Option<Transaction>
    ensures { option_to_list result ≡ transactions (shown command.entry) }
{
    let (source, sequence, action) = match command {
        Command::Create {
            source,
            sequence,
            account,
        } => (source, sequence, Action::Create { account }),
        Command::Pay {
            source,
            sequence,
            receiver,
            asset,
            amount,
            ..
        } => (
            source,
            sequence,
            Action::Pay {
                receiver,
                asset,
                amount,
            },
        ),
        Command::Place {
            source,
            sequence,
            sold,
            bought,
            limit,
            amount,
        } => (
            source,
            sequence,
            Action::Place {
                sold,
                bought,
                limit,
                amount,
            },
        ),
        Command::Cancel {
            source,
            sequence,
            sold,
            bought,
            limit,
            offer,
        } => (
            source,
            sequence,
            Action::Cancel {
                sold,
                bought,
                limit,
                offer,
            },
        ),
        _ => return None,
    };
    Some(Transaction {
        source,
        sequence,
        action,
    })
}

impl Draft {
    pub(crate) fn new() -> Draft
        ensures { result ≡ blank }
    {
        Draft {
            height: 0,
            parent: [0; 32],
            prices: [0; 8],
            volumes: ArrayVec::new(),
            transactions: ArrayVec::new(),
        }
    }

    // Takes in one command. There is room for its price or its volume; transaction 1,025 is refused.
    pub(crate) fn add(&mut self, command: Command) -> Result<(), Cause>
        requires room { Room self.old (shown command) }
        requires few { array_vec_len self.old.transactions ≤ 1024 }
        ensures { let count = array_vec_len self.old.transactions + length (transactions (shown command.entry)) in
            MatchResult result
            (λ _. (count ≤ 1024) × (self.new ≡ added self.old (shown command.entry)))
            (λ cause. (1024 < count) × (cause ≡ TooManyTransactions)) }
    {
        match command {
            Command::Begin { height, parent } => {
                self.height = height;
                self.parent = *parent;
            }
            Command::Price { asset, price } => self.prices[asset as usize] = price,
            Command::Volume {
                sold,
                bought,
                amount,
            } => self.volumes.push(Volume {
                sold,
                bought,
                amount,
            }),
            _ => {
                if let Some(transaction) = transaction_of(command) {
                    self.transactions
                        .try_push(transaction)
                        .map_err(|_| Cause::TooManyTransactions)?;
                }
            }
        }
        Ok(())
    }
}
