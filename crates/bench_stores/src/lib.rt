// Workloads over the account stores, for the program in bench/ that times them beside Rust's own maps. Each makes a
// store over an array of its own, opens as many accounts as it has slots, looks balances up and walks the numbers in
// rising order. Nothing is promised of the sums, which only keep the work from being left out. Assumes nothing.
#![tactic(auto)]

ghost use Rattle.std.specs.Prelude.{◌≤◌};

use accounts::AccountStore;
use hashed_store::{Entry, HashedStore};
use sorted_store::SortedStore;
use terms::Account;

// What a run does: so many stores, and of each so many look-ups and walks, over numbers in turn or scattered ones.
#[derive(Clone, Copy)]
struct Load {
    repeat: u32,
    lookups: u32,
    walks: u32,
    scattered: bool,
}

// The number of the i-th account: i itself, or scattered over all numbers. Different for different i, and 0 for 0 alone.
fn nth(i: u32, scattered: bool) -> u32 {
    if !scattered {
        return i;
    }
    let mut x = i;
    x = (x ^ (x >> 16)).wrapping_mul(0x85eb_ca6b);
    x = (x ^ (x >> 13)).wrapping_mul(0xc2b2_ae35);
    x ^ (x >> 16)
}

fn open_all<S: AccountStore>(store: &mut S, count: u32, scattered: bool) -> u64 {
    let mut opened: u64 = 0;
    for i in 0..count {
        if store.open(nth(i.wrapping_add(1), scattered)).is_ok() {
            opened = opened.wrapping_add(1);
        }
    }
    opened
}

fn look_up<S: AccountStore>(store: &S, count: u32, times: u32, scattered: bool) -> u64 {
    let mut sum: u64 = 0;
    let mut state: u32 = 1;
    for _ in 0..times {
        state = state.wrapping_mul(1_664_525).wrapping_add(1_013_904_223);
        let i = if count > 0 { (state >> 8) % count } else { 0 };
        let number = nth(i.wrapping_add(1), scattered);
        sum = sum.wrapping_add(store.balance(number, (state & 7) as u8));
    }
    sum
}

fn walk<S: AccountStore>(store: &S, times: u32) -> u64 {
    let mut sum: u64 = 0;
    for _ in 0..times {
        let mut at = 0;
        for _ in 0..store.count() {
            let Some(n) = store.next(at) else {
                break;
            };
            at = n;
            sum = sum.wrapping_add(at as u64);
        }
    }
    sum
}

fn exercise<S: AccountStore>(store: &mut S, load: Load) -> u64 {
    let count = store.capacity();
    open_all(store, count, load.scattered)
        .wrapping_add(look_up(store, count, load.lookups, load.scattered))
        .wrapping_add(walk(store, load.walks))
}

fn exercise_sorted(slots: &mut [Account], load: Load) -> u64 {
    let mut sum: u64 = 0;
    for _ in 0..load.repeat {
        let mut store = SortedStore::new(&mut *slots, u32::MAX);
        sum = sum.wrapping_add(exercise(&mut store, load));
    }
    sum
}

fn exercise_hashed(slots: &mut [Account], index: &mut [Entry], load: Load) -> u64 {
    let mut sum: u64 = 0;
    for _ in 0..load.repeat {
        let mut store = HashedStore::new(&mut *slots, &mut *index, u32::MAX);
        sum = sum.wrapping_add(exercise(&mut store, load));
    }
    sum
}

// Sorted stores of N slots.
fn sorted<const N: usize>(load: Load) -> u64
    requires { N ≤ 65536 }
{
    exercise_sorted(&mut [Account::default(); N], load)
}

// Hashed stores of N slots, with M entries in their index.
fn hashed<const N: usize, const M: usize>(load: Load) -> u64
    requires { (N ≤ 65536) × (M ≤ 196608) }
{
    exercise_hashed(
        &mut [Account::default(); N],
        &mut [Entry::default(); M],
        load,
    )
}

#[unsafe(no_mangle)]
pub extern "C" fn sorted_small(repeat: u32, lookups: u32, walks: u32, scattered: bool) -> u64 {
    sorted::<256>(Load {
        repeat,
        lookups,
        walks,
        scattered,
    })
}

#[unsafe(no_mangle)]
pub extern "C" fn sorted_large(repeat: u32, lookups: u32, walks: u32, scattered: bool) -> u64 {
    sorted::<65_536>(Load {
        repeat,
        lookups,
        walks,
        scattered,
    })
}

#[unsafe(no_mangle)]
pub extern "C" fn hashed_small(repeat: u32, lookups: u32, walks: u32, scattered: bool) -> u64 {
    hashed::<256, 768>(Load {
        repeat,
        lookups,
        walks,
        scattered,
    })
}

#[unsafe(no_mangle)]
pub extern "C" fn hashed_large(repeat: u32, lookups: u32, walks: u32, scattered: bool) -> u64 {
    hashed::<65_536, 196_608>(Load {
        repeat,
        lookups,
        walks,
        scattered,
    })
}
