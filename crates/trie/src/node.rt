// The nodes of the trie and the descent through them. A descent takes the number of key bits that the subtree may still
// part at; each branch parts at a lower bit than the one above it. Assumes what each function requires.
ghost use Rattle.std.specs.Prelude.{◌≡◌, ℕ, ◌+◌, ◌-◌, ◌*◌, ◌/◌, ◌%◌, ◌^◌, ◌<◌, ◌≤◌, true, IfOk, if◌then◌else◌, vec_len, vec_capacity, ◌≢◌, nat_eq};
ghost use Rattle.trie.specs.Trie.{held, under, total, offers, within, Ordered, Near, Hangs, Parted, Placed, Removed, forks, Lone, Amount, Next};

use std::alloc::{AllocError, Global};
use std::mem;

#[derive(Drop)]
pub enum Node {
    // no offer: an empty trie, or a node that is not in use
    Idle,
    Offer {
        key: u128,
        amount: u64,
    },
    Branch {
        // the bit at which the keys below part
        bit: u32,
        // the lowest number that has this bit set and is like them above it
        split: u128,
        // the sum of the amounts below
        sum: u64,
        // the side whose keys lie below that number, and the side whose keys do not
        left: Box<Node>,
        right: Box<Node>,
    },
}

// The amount at a key, 0 where it does not stand.
pub(crate) fn amount(node: &Node, bits: u32, key: u128) -> u64
    requires { Ordered bits node.now }
    ensures { result ≡ held node.now key }
{
    match node {
        Node::Idle => 0,
        Node::Offer { key: k, amount: a } => { if *k == key { *a } else { 0 } }
        Node::Branch {
            bit,
            split,
            left,
            right,
            ..
        } => {
            if key < *split {
                amount(left, *bit, key)
            } else {
                amount(right, *bit, key)
            }
        }
    }
}

// The sum of all amounts.
fn all(node: &Node, bits: u32) -> u64
    requires { Ordered bits node.now }
    ensures { result ≡ total node.now }
{
    match node {
        Node::Idle => 0,
        Node::Offer { amount: a, .. } => *a,
        Node::Branch { sum, .. } => *sum,
    }
}

// The sum of the amounts at the keys below one. It looks at one path: a branch's left side counts whole or not at all
// where the path does not enter it.
pub(crate) fn sum_under(node: &Node, bits: u32, key: u128) -> u64
    requires ok { Ordered bits node.now }
    requires fits { total node.now < 2 ^ 64 }
    ensures { result ≡ under node.now key }
{
    match node {
        Node::Idle => 0,
        Node::Offer { key: k, amount: a } => { if *k < key { *a } else { 0 } }
        Node::Branch {
            bit,
            split,
            left,
            right,
            ..
        } => {
            if key <= *split {
                sum_under(left, *bit, key)
            } else {
                all(left, *bit) + sum_under(right, *bit, key)
            }
        }
    }
}

// Sets the amount at a standing key to `to`, which is `by` less than it was.
pub(crate) fn reduce(node: &mut Node, bits: u32, key: u128, to: u64, by: u64)
    requires ok { Ordered bits node.old }
    requires stands { held node.old key ≡ to + by }
    requires some { 0 < to }
    ensures ok { Ordered bits node.new }
    ensures held { (x : ℕ) → held node.new x ≡ (if nat_eq x key then to else held node.old x) }
    ensures count { offers node.new ≡ offers node.old }
    ensures total { total node.new + by ≡ total node.old }
    ensures keys { (lo hi : ℕ) → within lo hi node.new ≡ within lo hi node.old }
{
    match node {
        Node::Idle => {}
        Node::Offer { amount: a, .. } => {
            *a = to;
        }
        Node::Branch {
            bit,
            split,
            sum,
            left,
            right,
        } => {
            *sum -= by;
            if key < *split {
                reduce(left, *bit, key, to, by);
            } else {
                reduce(right, *bit, key, to, by);
            }
        }
    }
}

// The highest bit at which two different numbers differ, of the lowest `bits`.
fn parting(a: u128, b: u128, bits: u32) -> u32
    requires small { bits < 128 }
    requires same { a / 2 ^ bits ≡ b / 2 ^ bits }
    requires differ { a ≢ b }
    ensures falls { result < bits }
    ensures above { a / 2 ^ (result + 1) ≡ b / 2 ^ (result + 1) }
    ensures here { a / 2 ^ result ≢ b / 2 ^ result }
{
    let bit = bits - 1;
    if a >> bit == b >> bit {
        parting(a, b, bit)
    } else {
        bit
    }
}

// The boxes that one key more needs, of its offer and of the branch above it.
#[derive(Drop)]
pub(crate) struct Spare {
    pub(crate) leaf: Box<Node>,
    pub(crate) fork: Box<Node>,
}

impl Spare {
    // Takes two boxes from the stock.
    pub(crate) fn take(stock: &mut Vec<Box<Node>>) -> Spare
        requires { 2 ≤ vec_len stock.old }
        ensures len { vec_len stock.new + 2 ≡ vec_len stock.old }
        ensures capacity { vec_capacity stock.new ≡ vec_capacity stock.old }
    {
        match (stock.pop(), stock.pop()) {
            (Some(leaf), Some(fork)) => Spare { leaf, fork },
            _ => unreachable(),
        }
    }
}

// Puts a branch in the node's place, with the node on one side and a new offer on the other.
fn splice(node: &mut Node, bits: u32, bit: u32, split: u128, key: u128, amount: u64, spare: Spare)
    requires ok { Ordered bit node.old }
    requires falls { bit < bits }
    requires middle { split % 2 ^ (bit + 1) ≡ 2 ^ bit }
    requires parted { Parted bit split key node.old }
    requires room { total node.old + amount < 2 ^ 64 }
    requires some { Amount amount }
    ensures { Placed bits key amount node.old node.new }
{
    let Spare { mut leaf, mut fork } = spare;
    let sum = all(node, bit) + amount;
    *leaf = Node::Offer { key, amount };
    mem::swap(&mut *fork, node);
    if key < split {
        *node = Node::Branch {
            bit,
            split,
            sum,
            left: leaf,
            right: fork,
        };
    } else {
        *node = Node::Branch {
            bit,
            split,
            sum,
            left: fork,
            right: leaf,
        };
    }
}

// The same, at the highest bit at which the new key differs from `base`, a number that is like the keys of the node.
fn graft(node: &mut Node, bits: u32, base: u128, key: u128, amount: u64, spare: Spare)
    requires hangs { Hangs base key node.old }
    requires small { bits < 128 }
    requires same { base / 2 ^ bits ≡ key / 2 ^ bits }
    requires differ { base ≢ key }
    requires room { total node.old + amount < 2 ^ 64 }
    requires some { Amount amount }
    ensures { Placed bits key amount node.old node.new }
{
    let bit = parting(base, key, bits);
    let top = base.max(key);
    let split = (top >> bit) << bit;
    splice(node, bits, bit, split, key, amount, spare);
}

// Adds an offer.
pub(crate) fn place(node: &mut Node, bits: u32, key: u128, amount: u64, spare: Spare)
    requires ok { Ordered bits node.old }
    requires near { Near bits key node.old }
    requires absent { held node.old key ≡ 0 }
    requires small { bits < 128 }
    requires room { total node.old + amount < 2 ^ 64 }
    requires some { Amount amount }
    ensures { Placed bits key amount node.old node.new }
{
    match node {
        Node::Idle => {}
        Node::Offer { key: k, .. } => {
            let base = *k;
            graft(node, bits, base, key, amount, spare);
        }
        Node::Branch {
            bit,
            split,
            sum,
            left,
            right,
        } => {
            if key >> (*bit + 1) == *split >> (*bit + 1) {
                *sum += amount;
                if key < *split {
                    place(left, *bit, key, amount, spare);
                } else {
                    place(right, *bit, key, amount, spare);
                }
            } else {
                let base = *split;
                graft(node, bits, base, key, amount, spare);
            }
        }
    }
}

// Whether the node has two sides.
pub(crate) fn is_branch(node: &Node) -> bool
    ensures { result ≡ forks node.now }
{
    matches!(node, Node::Branch { .. })
}

// Takes the offer out that is one side of a branch: the other side takes the branch's place.
fn collapse(node: &mut Node, bits: u32, key: u128, by: u64) -> Spare
    requires ok { Ordered bits node.old }
    requires lone { Lone key by node.old }
    ensures { Removed bits key by node.old node.new }
{
    let old = mem::replace(node, Node::Idle);
    match old {
        Node::Branch {
            split,
            left,
            right,
            ..
        } => {
            let mut left = left;
            let mut right = right;
            if key < split {
                mem::swap(&mut *right, node);
                Spare {
                    leaf: left,
                    fork: right,
                }
            } else {
                mem::swap(&mut *left, node);
                Spare {
                    leaf: right,
                    fork: left,
                }
            }
        }
        _ => unreachable(),
    }
}

// Takes out the offer at a standing key, from a branch.
pub(crate) fn remove(node: &mut Node, bits: u32, key: u128, by: u64) -> Spare
    requires ok { Ordered bits node.old }
    requires forks { forks node.old ≡ true }
    requires stands { held node.old key ≡ by }
    requires some { 0 < by }
    ensures { Removed bits key by node.old node.new }
{
    match node {
        Node::Branch {
            bit,
            split,
            sum,
            left,
            right,
        } => {
            if key < *split {
                if is_branch(left) {
                    *sum -= by;
                    remove(left, *bit, key, by)
                } else {
                    collapse(node, bits, key, by)
                }
            } else {
                if is_branch(right) {
                    *sum -= by;
                    remove(right, *bit, key, by)
                } else {
                    collapse(node, bits, key, by)
                }
            }
        }
        _ => unreachable(),
    }
}

// So many boxes, each of which may find no memory.
pub(crate) fn stock(heap: Global, n: usize) -> Result<Vec<Box<Node>>, AllocError>
    ensures { IfOk result (λ v. vec_len v ≡ n) }
{
    let mut v = Vec::new(heap);
    for _ in 0..n {
        v.push(Box::new(heap, Node::Idle)?)?;
    }
    Ok(v)
}

// The lowest key above one.
pub(crate) fn next(node: &Node, bits: u32, key: u128) -> Option<u128>
    requires { Ordered bits node.now }
    ensures { Next key node.now result }
{
    match node {
        Node::Idle => None,
        Node::Offer { key: k, .. } => { if key < *k { Some(*k) } else { None } }
        Node::Branch {
            bit,
            split,
            left,
            right,
            ..
        } => {
            if key < *split {
                next(left, *bit, key).or_else(
                    ||
                        requires { Ordered bit.now right.now.value }
                        ensures { Next key right.entry.now.value result }
                    { next(right, *bit, key) },
                )
            } else {
                next(right, *bit, key)
            }
        }
    }
}
