// What a transaction asks for, as the record that it comes to. Assumes nothing.
ghost use Rattle.std.specs.Prelude.{◌≡◌};
ghost use Rattle.std.specs.Option.{option_to_list};
ghost use Rattle.terms.specs.Asked.{created, placed, cancelled};

use crate::{Action, Key, Offer, Transaction};

impl Transaction {
    // The account that it opens, if it opens one.
    pub fn created(&self) -> Option<u32>
        ensures { option_to_list result ≡ created self.now }
    {
        match self.action {
            Action::Create { account } => Some(account),
            _ => None,
        }
    }

    // The offer that it places, if it places one: under its source and its sequence number.
    pub fn placed(&self) -> Option<Offer>
        ensures { option_to_list result ≡ placed self.now }
    {
        match self.action {
            Action::Place {
                sold,
                bought,
                limit,
                amount,
            } => Some(Offer {
                key: Key {
                    sold,
                    bought,
                    limit,
                    account: self.source,
                    sequence: self.sequence,
                },
                amount,
            }),
            _ => None,
        }
    }

    // The key of the offer that it cancels, if it cancels one: an offer of its source.
    pub fn cancelled(&self) -> Option<Key>
        ensures { option_to_list result ≡ cancelled self.now }
    {
        match self.action {
            Action::Cancel {
                sold,
                bought,
                limit,
                offer,
            } => Some(Key {
                sold,
                bought,
                limit,
                account: self.source,
                sequence: offer,
            }),
            _ => None,
        }
    }
}
