// The listing of a stream on a replica of chosen make and size.
ghost use Rattle.std.specs.Prelude.{min, [], IfOk};
ghost use Rattle.listing.specs.Streams.{Outcome};

use crate::settings::{BookMake, Settings, StoreMake};
use accounts::AccountStore;
use hashed_store::{Entry, HashedStore};
use listing::{Listing, list_stream};
use ordered_book::OrderedBook;
use sorted_store::SortedStore;
use std::alloc::{AllocError, Global};
use terms::{Account, Offer};
use trie_book::TrieBook;

// Over this store and an empty book of the chosen make and size.
fn over_store<S: AccountStore + Drop>(
    heap: Global,
    settings: Settings,
    store: S,
    bytes: &[u8],
) -> Result<Listing, AllocError>
    ensures { IfOk result (λ x. Outcome (S.store store) (record { capacity = min settings.offers 65536; offers = [] }) bytes.now x.lines.items x.counts) }
{
    let offers = settings.offers as usize;
    match settings.book {
        BookMake::Trie => {
            let trie = TrieBook::new(heap, offers.saturating_mul(2).saturating_sub(1))?;
            list_stream(heap, store, trie, bytes)
        }
        BookMake::Table => {
            let mut slots = vec![in heap; Offer::default(); offers]?;
            let table = OrderedBook::new(slots.as_mut_slice());
            list_stream(heap, store, table, bytes)
        }
    }
}

// The listing is the same whatever the makes: it says what comes of the bytes on a replica of these sizes.
pub fn replay(heap: Global, settings: Settings, bytes: &[u8]) -> Result<Listing, AllocError>
    ensures { IfOk result (λ x. Outcome (record { capacity = min settings.accounts 65536; top = settings.top; accounts = [] }) (record { capacity = min settings.offers 65536; offers = [] }) bytes.now x.lines.items x.counts) }
{
    let n = settings.accounts as usize;
    let mut slots = vec![in heap; Account::default(); n]?;
    match settings.store {
        StoreMake::Sorted => {
            let store = SortedStore::new(slots.as_mut_slice(), settings.top);
            over_store(heap, settings, store, bytes)
        }
        StoreMake::Hashed => {
            let mut index = vec![in heap; Entry::default(); n.saturating_mul(3)]?;
            let store = HashedStore::new(slots.as_mut_slice(), index.as_mut_slice(), settings.top);
            over_store(heap, settings, store, bytes)
        }
    }
}
