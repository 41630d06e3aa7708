// The stores and books of two makes that a script runs against. Assumes nothing.
ghost use Rattle.std.specs.Prelude.{◌≡◌, true, IfOk};

use accounts::AccountStore;
use offers::OfferBook;
use std::io;
use store_answers::{Compared, compare_books, compare_stores};
use store_script::{Ask, Command};

#[derive(Drop)]
pub struct Makes<S, T, B, C> {
    pub sorted: S,
    pub hashed: T,
    pub ordered: B,
    pub trie: C,
}

impl<S: AccountStore, T: AccountStore, B: OfferBook, C: OfferBook> Makes<S, T, B, C> {
    // Runs a command against both makes, prints the answers, and tells whether they agree: where the two stores mean
    // the same and the two books mean the same, they do.
    pub fn step(&mut self, rt: &HostRuntime, command: &Command<'_>) -> io::Result<bool>
        ensures { (S.store self.old.sorted) ≡ (T.store self.old.hashed) → (B.book self.old.ordered) ≡ (C.book self.old.trie) → IfOk result (λ agree. agree ≡ true) }
    {
        let (one, other, compared) = match command.ask {
            Ask::Accounts(ask) => {
                let compared = compare_stores(&mut self.sorted, &mut self.hashed, ask);
                ("sorted", "hashed", compared)
            }
            Ask::Offers(ask) => {
                let compared = compare_books(&mut self.ordered, &mut self.trie, ask);
                ("ordered", "trie", compared)
            }
        };
        let agree = compared.agree();
        let Compared { first, second } = compared;
        let verdict = if agree { "agree" } else { "DIFFER" };
        println!(rt; "{command}: {one} {first}, {other} {second}: {verdict}")?;
        Ok(agree)
    }
}
