// Workloads over the offer books, for the program in bench/ that times them beside Rust's BTreeMap. Each makes a book,
// places as many offers as it has room for, looks amounts up, walks the keys in rising order and asks for sums up to a
// limit. Nothing is promised of the sums, which only keep the work from being left out. Assumes nothing.
#![tactic(auto)]

ghost use Rattle.std.specs.Prelude.{◌≤◌};

use offers::OfferBook;
use ordered_book::OrderedBook;
use std::alloc::Global;
use terms::{Key, Offer};
use trie_book::TrieBook;

// What a run does: so many books, and of each so many look-ups, walks and sums, over keys in turn or scattered ones.
#[derive(Clone, Copy)]
struct Load {
    repeat: u32,
    lookups: u32,
    walks: u32,
    reaches: u32,
    scattered: bool,
}

// Scatters numbers over all of 32 bits. Different for different i.
fn scatter(i: u32) -> u32 {
    let mut x = i;
    x = (x ^ (x >> 16)).wrapping_mul(0x85eb_ca6b);
    x = (x ^ (x >> 13)).wrapping_mul(0xc2b2_ae35);
    x ^ (x >> 16)
}

// The key of the i-th offer: of one pair with rising limits, or scattered over all pairs and limits.
fn nth(i: u32, scattered: bool) -> Key {
    if !scattered {
        return Key {
            sold: 0,
            bought: 1,
            limit: i / 16 + 1,
            account: i % 16 + 1,
            sequence: 1,
        };
    }
    let x = scatter(i.wrapping_add(1));
    let sold = (x & 7) as u8;
    let other = ((x >> 3) % 7) as u8;
    Key {
        sold,
        bought: if other < sold { other } else { other + 1 },
        limit: (x >> 6) | 1,
        account: i.wrapping_add(1).max(1),
        sequence: 1,
    }
}

fn place_all<B: OfferBook>(book: &mut B, count: u32, scattered: bool) -> u64 {
    let mut placed: u64 = 0;
    for i in 0..count {
        if book.place(nth(i, scattered), 1000).is_ok() {
            placed = placed.wrapping_add(1);
        }
    }
    placed
}

fn look_up<B: OfferBook>(book: &B, count: u32, times: u32, scattered: bool) -> u64 {
    let mut sum: u64 = 0;
    let mut state: u32 = 1;
    for _ in 0..times {
        state = state.wrapping_mul(1_664_525).wrapping_add(1_013_904_223);
        let i = if count > 0 { (state >> 8) % count } else { 0 };
        sum = sum.wrapping_add(book.amount(nth(i, scattered)));
    }
    sum
}

fn walk<B: OfferBook>(book: &B, times: u32) -> u64 {
    let mut sum: u64 = 0;
    for _ in 0..times {
        let mut at = Key::default();
        for _ in 0..book.count() {
            let Some(key) = book.next(at) else {
                break;
            };
            at = key;
            sum = sum.wrapping_add(at.limit as u64);
        }
    }
    sum
}

fn reach<B: OfferBook>(book: &B, count: u32, times: u32, scattered: bool) -> u64 {
    let mut sum: u64 = 0;
    let mut state: u32 = 1;
    for _ in 0..times {
        state = state.wrapping_mul(1_664_525).wrapping_add(1_013_904_223);
        let i = if count > 0 { (state >> 8) % count } else { 0 };
        let key = nth(i, scattered);
        sum = sum.wrapping_add(book.up_to(key.sold, key.bought, key.limit));
    }
    sum
}

fn exercise<B: OfferBook>(book: &mut B, load: Load) -> u64 {
    let count = book.capacity();
    place_all(book, count, load.scattered)
        .wrapping_add(look_up(book, count, load.lookups, load.scattered))
        .wrapping_add(walk(book, load.walks))
        .wrapping_add(reach(book, count, load.reaches, load.scattered))
}

fn exercise_ordered(slots: &mut [Offer], load: Load) -> u64 {
    let mut sum: u64 = 0;
    for _ in 0..load.repeat {
        let mut book = OrderedBook::new(&mut *slots);
        sum = sum.wrapping_add(exercise(&mut book, load));
    }
    sum
}

// Ordered books of N slots.
fn ordered<const N: usize>(load: Load) -> u64
    requires { N ≤ 65536 }
{
    exercise_ordered(&mut [Offer::default(); N], load)
}

#[unsafe(no_mangle)]
pub extern "C" fn ordered_small(
    repeat: u32,
    lookups: u32,
    walks: u32,
    reaches: u32,
    scattered: bool,
) -> u64 {
    ordered::<256>(Load {
        repeat,
        lookups,
        walks,
        reaches,
        scattered,
    })
}

#[unsafe(no_mangle)]
pub extern "C" fn ordered_large(
    repeat: u32,
    lookups: u32,
    walks: u32,
    reaches: u32,
    scattered: bool,
) -> u64 {
    ordered::<65_536>(Load {
        repeat,
        lookups,
        walks,
        reaches,
        scattered,
    })
}

// A trie of n nodes; 0 where memory is wanting.
#[unsafe(no_mangle)]
pub extern "C" fn trie_of(
    heap: Global,
    nodes: usize,
    repeat: u32,
    lookups: u32,
    walks: u32,
    reaches: u32,
    scattered: bool,
) -> u64 {
    let load = Load {
        repeat,
        lookups,
        walks,
        reaches,
        scattered,
    };
    let mut sum: u64 = 0;
    for _ in 0..repeat {
        let Ok(mut book) = TrieBook::new(heap, nodes) else {
            return 0;
        };
        sum = sum.wrapping_add(exercise(&mut book, load));
    }
    sum
}
