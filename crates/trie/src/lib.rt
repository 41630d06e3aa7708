// A binary trie over keys of 102 bits, highest first: a map from keys to amounts, with the sum of the amounts below any
// key in one descent. n nodes hold (n + 1) / 2 keys. All memory is asked for when the trie is made, none in use: what a
// key more will need lies in stock. Assumes nothing: every public function takes any arguments and refuses what
// does not fit.
#![tactic(auto)]

ghost use Rattle.std.specs.Prelude.{◌≡◌, ℕ, ◌+◌, ◌-◌, ◌*◌, ◌/◌, ◌^◌, ◌<◌, ◌≤◌, min, true, ◌&&◌, IfOk, if◌then◌else◌, vec_len, vec_capacity, ◌==◌, nat_eq};
ghost use Rattle.trie.specs.declared.node.Node.TheVariants.{Idle};
ghost use Rattle.trie.specs.Trie.{held, under, offers, Whole, Amount, Next, placeable, reducible};

use node::{Node, Spare};
use std::alloc::{AllocError, Global};

mod node;

// As many nodes as a trie may have: room for 65,536 keys.
const MOST: usize = 131_071;
// The bits of a key, and the first number that has more.
const BITS: u32 = 102;

const KEYS: u128 = 1 << BITS;
// The largest amount.
const MAX_AMOUNT: u64 = (1 << 36) - 1;

#[derive(Drop)]
pub struct Trie {
    root: Node,
    // boxes for two more nodes with each key after the first
    spare: Vec<Box<Node>>,
    count: u32,
    capacity: u32,
    ghost ok: { Whole root },
    ghost counted: { count ≡ offers root },
    ghost few: { count ≤ capacity },
    ghost stock: { vec_len spare + 2 * (count - 1) ≡ 2 * (capacity - 1) },
    ghost room: { 2 * (capacity - 1) ≤ vec_capacity spare },
    ghost small: { capacity ≤ 65536 },
}

impl Trie {
    // An empty trie of n nodes; nodes beyond 131,071 lie idle. Fails where memory is wanting.
    pub fn new(heap: Global, nodes: usize) -> Result<Trie, AllocError>
        ensures { IfOk result (λ t. (t.root ≡ Idle) × (t.capacity ≡ min ((nodes + 1) / 2) 65536)) }
    {
        let n = nodes.min(MOST);
        let capacity = ((n + 1) / 2) as u32;
        let boxes = if capacity == 0 { 0 } else { 2 * (capacity - 1) };
        let spare = node::stock(heap, boxes as usize)?;
        Ok(Trie {
            root: Node::Idle,
            spare,
            count: 0,
            capacity,
        })
    }

    // How many keys stand.
    pub fn count(&self) -> u32
        ensures { result ≡ offers self.now.root }
    {
        self.count
    }

    // How many may stand.
    pub fn capacity(&self) -> u32
        ensures { result ≡ self.now.capacity }
    {
        self.capacity
    }

    // The amount at a key, 0 where it does not stand.
    pub fn amount(&self, key: u128) -> u64
        ensures { result ≡ held self.now.root key }
    {
        match &self.root {
            Node::Idle => 0,
            _ => node::amount(&self.root, BITS, key),
        }
    }

    // The sum of the amounts at the keys below one.
    pub fn below(&self, key: u128) -> u64
        ensures { result ≡ under self.now.root key }
    {
        match &self.root {
            Node::Idle => 0,
            _ => node::sum_under(&self.root, BITS, key),
        }
    }

    // The lowest standing key above one.
    pub fn next(&self, key: u128) -> Option<u128>
        ensures { Next key self.now.root result }
    {
        match &self.root {
            Node::Idle => None,
            _ => node::next(&self.root, BITS, key),
        }
    }

    // Adds a key with an amount. False where the key stands, all room is taken, the key has more than 102 bits, or the
    // amount is out of range; then nothing changes.
    // True and false as of `HashSet::insert`: no value stands beside the flag.
    pub fn place(&mut self, key: u128, units: u64) -> bool
        ensures done { result ≡ placeable self.old.root self.old.capacity key units }
        ensures capacity { self.new.capacity ≡ self.old.capacity }
        ensures count { offers self.new.root ≡ offers self.old.root + (if result then 1 else 0) }
        ensures holds { (x : ℕ) → held self.new.root x ≡ (if result && x == key then units else held self.old.root x) }
    {
        if self.amount(key) > 0 || self.count >= self.capacity {
            return false;
        }
        if key >= KEYS || units == 0 || units > MAX_AMOUNT {
            return false;
        }
        self.enter(key, units);
        true
    }

    // Sets a standing key to a smaller or equal amount; 0 takes it out. False where it does not stand or has less;
    // then nothing changes. True and false as of `HashSet::insert`: no value stands beside the flag.
    pub fn reduce(&mut self, key: u128, units: u64) -> bool
        ensures done { result ≡ reducible self.old.root key units }
        ensures capacity { self.new.capacity ≡ self.old.capacity }
        ensures count { offers self.new.root + (if result && units == 0 then 1 else 0) ≡ offers self.old.root }
        ensures holds { (x : ℕ) → held self.new.root x ≡ (if result && x == key then units else held self.old.root x) }
    {
        let old = self.amount(key);
        if old == 0 || units > old {
            return false;
        }
        self.shrink(key, units, old - units);
        true
    }

    fn enter(&mut self, key: u128, units: u64)
        requires range { key < 2 ^ 102 }
        requires absent { held self.old.root key ≡ 0 }
        requires room { self.old.count < self.old.capacity }
        requires some { Amount units }
        ensures capacity { self.new.capacity ≡ self.old.capacity }
        ensures count { offers self.new.root ≡ offers self.old.root + 1 }
        ensures holds { (x : ℕ) → held self.new.root x ≡ (if nat_eq x key then units else held self.old.root x) }
    {
        if self.count == 0 {
            self.root = Node::Offer { key, amount: units };
            self.count = 1;
            return;
        }
        let spare = Spare::take(&mut self.spare);
        node::place(&mut self.root, BITS, key, units, spare);
        self.count += 1;
    }

    fn shrink(&mut self, key: u128, to: u64, by: u64)
        requires stands { held self.old.root key ≡ to + by }
        requires some { 0 < to + by }
        ensures capacity { self.new.capacity ≡ self.old.capacity }
        ensures count { offers self.new.root + (if nat_eq to 0 then 1 else 0) ≡ offers self.old.root }
        ensures holds { (x : ℕ) → held self.new.root x ≡ (if nat_eq x key then to else held self.old.root x) }
    {
        if to > 0 {
            node::reduce(&mut self.root, BITS, key, to, by);
            return;
        }
        if node::is_branch(&self.root) {
            let Spare { leaf, fork } = node::remove(&mut self.root, BITS, key, by);
            self.spare.push_reserved(leaf);
            self.spare.push_reserved(fork);
            self.count -= 1;
            return;
        }
        self.root = Node::Idle;
        self.count = 0;
    }
}
