// A replica and its checked blocks: found, check, fill, commit, reject. Assumes nothing of the bytes. A replica is put
// together from a store and a book by `new`, and nothing but these calls changes it from then on.
ghost use Rattle.std.specs.Prelude.{◌≡◌, true, IfOk, None, Ok, Err};
ghost use Rattle.exchange.specs.State.{newborn};
ghost use Rattle.exchange.specs.Faults.{Verdict};
ghost use Rattle.exchange.specs.Commit.{Committed};
ghost use Rattle.exchange.specs.Life.{Rules, after_reject};
ghost use Rattle.blocks.specs.Decoded.{block_of};
ghost use Rattle.replica.specs.Calls.{says, plainly, FoundCall, CheckCall, FillCall, CommitCall};

use crate::numbers::Numbers;
use accounts::AccountStore;
use blocks::{DecodedBlock, read_block, read_founding};
use clearing::clear;
use fills::filled;
use founding::{grant_all, judge_founding};
use judging::judge;
use offers::OfferBook;
use state_digest::state_digest;
use std::marker::Model;
use terms::{Cause, Fault, Key};

// A replica holds its store and its book, of whichever make.
#[derive(Drop)]
pub struct Replica<S: AccountStore, B: OfferBook> {
    pub(crate) store: S,
    pub(crate) book: B,
    pub(crate) numbers: Numbers,
}

// It means the state of the exchange that these make up, which is sound from the founding on.
impl<S: AccountStore, B: OfferBook> Model for Replica<S, B> {
    ghost use Rattle.exchange.specs.State.{State};

    ghost Value = { State };

    ghost use Rattle.replica.specs.Meaning.{state_of, Steady};

    ghost view = { λ r. state_of (S.store r.store) (B.book r.book) r.numbers };

    ghost invariant = { λ r. Steady (state_of (S.store r.store) (B.book r.book) r.numbers) };
}

impl<S: AccountStore, B: OfferBook> Replica<S, B> {
    // A replica that is not founded yet: its numbers and its digest are zeros.
    pub fn new(store: S, book: B) -> Self
        ensures { result ≡ newborn (S.store store) (B.book book) }
    {
        Replica {
            store,
            book,
            numbers: Numbers::ZERO,
        }
    }

    // Opens the accounts of a founding, with their balances. Refuses with 25, founded already; then 22, store or book not
    // empty; then what the bytes have (1 to 7), and the least of 15, 19 and 23. A refusal changes nothing.
    pub fn found(&mut self, bytes: &[u8]) -> Result<(), Fault>
        ensures { FoundCall self.old bytes.now result self.new }
    {
        if self.numbers.founded {
            return Err(Cause::FoundedAlready.into());
        }
        if self.store.count() != 0 || self.book.count() != 0 {
            return Err(Cause::NotEmpty.into());
        }
        let founding = read_founding(bytes)?;
        judge_founding(&self.store, &founding)?;
        grant_all(&mut self.store, &founding)?;
        let digest = state_digest(&self.store, &self.book, 0, &[0; 8]);
        self.numbers = Numbers {
            founded: true,
            digest,
            ..Numbers::ZERO
        };
        Ok(())
    }

    // What the bytes say, where they are a readable block that has no fault now. Refuses with 24, not founded; then 1 to 21.
    fn rule(&self, bytes: &[u8]) -> Result<DecodedBlock, Fault>
        ensures { Rules self.now bytes.now (says result) }
    {
        if !self.numbers.founded {
            return Err(Cause::NotFounded.into());
        }
        let block = read_block(bytes)?;
        judge(
            &self.store,
            &self.book,
            self.numbers.height,
            &self.numbers.digest,
            &block,
        )?;
        Ok(block)
    }

    // Checks a block, and gives it back as one that is owed a verdict: commit or reject. Refuses with 24, not founded; then
    // 26, no more checks can be counted; then what the bytes have (1 to 7), and the least of 8 to 21.
    pub fn check<'a>(&mut self, bytes: &'a [u8]) -> Result<CheckedBlock<'a>, Fault>
        ensures holds { IfOk result (λ c. c ≡ bytes.now) }
        ensures call { CheckCall self.old bytes.now (plainly result) self.new }
    {
        if !self.numbers.founded {
            return Err(Cause::NotFounded.into());
        }
        if self.numbers.passed == u32::MAX {
            return Err(Cause::ChecksUsedUp.into());
        }
        let _ = self.rule(bytes)?;
        self.numbers.passed += 1;
        Ok(CheckedBlock { bytes })
    }

    // Applies a block that has no fault.
    fn apply(&mut self, block: &DecodedBlock)
        requires founded { self.old.founded ≡ true }
        requires clean { Verdict self.old (block_of block.now) None }
        ensures { Committed self.old (block_of block.now) self.new }
    {
        let mut remainders = self.numbers.remainders;
        clear(&mut self.store, &mut self.book, &mut remainders, block).unwrap();
        let height = self.numbers.height + 1;
        let digest = state_digest(&self.store, &self.book, height, &remainders);
        self.numbers = Numbers {
            height,
            digest,
            remainders,
            ..self.numbers
        };
    }
}

// A block that passed a check, with its bytes. It is owed a verdict: it can't be let go, and only commit or reject
// spends it.
pub struct CheckedBlock<'a> {
    bytes: &'a [u8],
}

// It means its bytes.
impl<'a> Model for CheckedBlock<'a> {
    ghost use Rattle.std.specs.Prelude.{ℕ, List};

    ghost Value = { List ℕ };

    ghost view = { λ c. c.bytes.now };
}

impl<'a> CheckedBlock<'a> {
    // What the block sells of a key, and what is paid for it: 0 and 0 where the key is not filled. Refuses with 24, not
    // founded; then the fault that the block has now. Changes nothing.
    pub fn fill<S: AccountStore, B: OfferBook>(
        &self,
        replica: &Replica<S, B>,
        key: Key,
    ) -> Result<(u64, u64), Fault>
        ensures { FillCall replica.now self.now key result }
    {
        let block = replica.rule(self.bytes)?;
        let (sold, paid) = filled(&replica.book, &block, key);
        Ok((sold, paid))
    }

    // Commits the block. It is tested afresh: where it has a fault now, that fault is returned, the block is spent, `lapsed`
    // is raised and nothing else changes.
    pub fn commit<S: AccountStore, B: OfferBook>(
        self,
        replica: &mut Replica<S, B>,
    ) -> Result<(), Fault>
        ensures { CommitCall replica.old self.entry result replica.new }
    {
        let CheckedBlock { bytes } = self;
        match replica.rule(bytes) {
            Ok(block) => {
                replica.apply(&block);
                Ok(())
            }
            Err(fault) => {
                replica.numbers.lapsed = replica.numbers.lapsed.saturating_add(1);
                Err(fault)
            }
        }
    }

    // Rejects the block: raises `rejected`, and changes nothing else. Refuses nothing.
    pub fn reject<S: AccountStore, B: OfferBook>(self, replica: &mut Replica<S, B>)
        ensures { replica.new ≡ after_reject replica.old }
    {
        let CheckedBlock { bytes: _ } = self;
        replica.numbers.rejected = replica.numbers.rejected.saturating_add(1);
    }
}
