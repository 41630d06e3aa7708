// Effects under keys, gathered from a list, sorted and added up: what comes in and what goes out under each key.
// Assumes nothing; at most MAX_ITEMS entries are gathered, and no memory is asked for.
ghost use Rattle.std.specs.Prelude.{◌≡◌, ℕ, ◌+◌, ◌*◌, ◌^◌, ◌<◌, ◌≤◌, List, [], ◌++◌, length, MatchResult};
ghost use Rattle.std.specs.Option.{option_to_list};
ghost use Rattle.std.specs.List.{flat_map, AllByRecursion};
ghost use Rattle.std.specs.List.Sorted.{IsSortedWithin};
ghost use Rattle.std.specs.Ordering.{on, eq_by_cmp, as_partial_cmp};
ghost use Rattle.std.specs.Cmp.{partial_equiv_from_equiv, eq_by_cmp_equiv, on_total, partial_order_from_total};
ghost use Rattle.std.proofs.Common.{refl};
ghost use Rattle.arrayvec.specs.ArrayVec.{array_vec_len};
ghost use Rattle.terms.specs.Order.{lower, Rising, under};
ghost use Rattle.terms.specs.Causes.{fault_of};
ghost use Rattle.terms.specs.declared.causes.Cause.TheVariants.{TooManyTransactions};
ghost use Rattle.tally.specs.Order.{order};
ghost use Rattle.tally.specs.Total.{order_total};
ghost use Rattle.tally.specs.Tally.{added, Tallied, Small};
ghost use Rattle.tally.specs.declared.effects.Effect.{Effect};

use crate::memory::Memory;
use crate::rules::{Place, Placed};
use ordered::{Keyed, SortKey, search};
use std::cmp::Ordering;
use terms::{Cause, Fault};

// As many entries as are gathered, and the effects that they may have: two each.
pub const MAX_ITEMS: usize = 1024;

pub const MAX_EFFECTS: usize = 2048;

// What comes in and goes out under a key by one entry.
#[derive(Clone, Copy, Default)]
pub struct Effect<K> {
    pub key: K,
    pub plus: u64,
    pub minus: u64,
}

impl<K> Effect<K> {
    // So much comes in.
    pub fn comes(key: K, amount: u64) -> Self
        ensures { result ≡ record { key = key; plus = amount; minus = 0 } }
    {
        Effect {
            key,
            plus: amount,
            minus: 0,
        }
    }

    // So much goes out.
    pub fn goes(key: K, amount: u64) -> Self
        ensures { result ≡ record { key = key; plus = 0; minus = amount } }
    {
        Effect {
            key,
            plus: 0,
            minus: amount,
        }
    }
}

// What comes in and goes out under a key by all of them.
#[derive(Clone, Copy, Default)]
pub struct Net<K> {
    pub key: K,
    pub plus: u128,
    pub minus: u128,
}

// A net is named as its key is.
impl<K: Placed> Placed for Net<K> {
    ghost first = { λ n. K.Placed.first n.key };

    ghost second = { λ n. K.Placed.second n.key };

    fn place(&self) -> Place {
        self.key.place()
    }
}

// And a list of nets is searched by their keys.
impl<K: SortKey> Keyed for Net<K> {
    type Id = K;

    ghost key = { λ n. n.key };

    fn key(&self) -> K {
        self.key
    }
}

// What an entry of a list gives: at most two effects. A trait and no closure, as `Rule` is.
pub trait Gather<X, K> {
    ghost gives: { Self → X → List (Effect K) };

    fn parts(&self, x: X) -> (Option<Effect<K>>, Option<Effect<K>>)
        ensures { option_to_list result.0 ++ option_to_list result.1 ≡ gives self.now x };
}

fn compare<K: SortKey>(a: K, b: K) -> Ordering
    ensures { result ≡ order (K.SortKey.rank a) (K.SortKey.rank b) }
{
    if a.precedes(b) {
        Ordering::Less
    } else if b.precedes(a) {
        Ordering::Greater
    } else {
        Ordering::Equal
    }
}

// Effects go by their keys.
impl<K: SortKey> PartialEq for Effect<K> {
    ghost eq = { eq_by_cmp (on (λ e. K.SortKey.rank e.key) order) };

    ghost laws = { partial_equiv_from_equiv (eq_by_cmp_equiv (on_total (λ e. K.SortKey.rank e.key) order_total)) };

    fn eq(&self, other: &Effect<K>) -> bool {
        compare(self.key, other.key).is_eq()
    }
}

impl<K: SortKey> Eq for Effect<K> {
    ghost laws = { eq_by_cmp_equiv (on_total (λ e. K.SortKey.rank e.key) order_total) };
}

impl<K: SortKey> PartialOrd for Effect<K> {
    ghost partial_cmp = { as_partial_cmp (on (λ e. K.SortKey.rank e.key) order) };

    ghost laws = { partial_order_from_total (on_total (λ e. K.SortKey.rank e.key) order_total) };

    fn partial_cmp(&self, other: &Effect<K>) -> Option<Ordering> {
        Some(compare(self.key, other.key))
    }
}

impl<K: SortKey> Ord for Effect<K> {
    ghost cmp = { on (λ e. K.SortKey.rank e.key) order };

    ghost total = { on_total (λ e. K.SortKey.rank e.key) order_total };

    ghost matches_partial_cmp = { λ _ _. refl };

    ghost matches_eq = { λ _ _. refl };

    fn cmp(&self, other: &Effect<K>) -> Ordering {
        compare(self.key, other.key)
    }
}

// Writes the effects of an entry after those that are there.
fn push<K: SortKey>(effects: &mut Memory<Effect<K>>, e: Option<Effect<K>>)
    requires { array_vec_len effects.old < 2048 }
    ensures items { effects.new.items ≡ effects.old.items ++ option_to_list e }
    ensures most { array_vec_len effects.new ≤ array_vec_len effects.old + 1 }
{
    if let Some(x) = e {
        effects.push(x);
    }
}

// All effects of the entries, in turn.
fn collect<X: Copy, K: SortKey, G: Gather<X, K>>(
    from: &G,
    xs: &[X],
    effects: &mut Memory<Effect<K>>,
)
    requires few { length xs.now ≤ 1024 }
    requires none { effects.old.items ≡ [] }
    ensures { effects.new.items ≡ flat_map (G.Gather.gives from.now) xs.now }
{
    for x in xs {
        let (a, b) = from.parts(*x);
        push(effects, a);
        push(effects, b);
    }
}

// One effect more, which is not below the last net.
fn add<K: SortKey>(nets: &mut Memory<Net<K>>, e: Effect<K>)
    requires room { array_vec_len nets.old < 2048 }
    requires small { AllByRecursion Small nets.old.items }
    ensures nets { nets.new.items ≡ added K.SortKey.rank nets.old.items e }
    ensures most { array_vec_len nets.new ≤ array_vec_len nets.old + 1 }
    ensures fits { (e.plus < 2 ^ 64) × (e.minus < 2 ^ 64) }
{
    let key = e.key;
    if let Some(last) = nets.last()
        && !last.key.precedes(key)
    {
        nets.set_last(Net {
            key: last.key,
            plus: last.plus + e.plus as u128,
            minus: last.minus + e.minus as u128,
        });
        return;
    }
    nets.push(Net {
        key,
        plus: e.plus as u128,
        minus: e.minus as u128,
    });
}

// Adds up sorted effects.
fn merge<K: SortKey>(effects: &[Effect<K>], nets: &mut Memory<Net<K>>)
    requires room { length effects.now ≤ 2048 }
    requires none { nets.old.items ≡ [] }
    requires sorted { IsSortedWithin (λ x y. lower (K.SortKey.rank x.key) (K.SortKey.rank y.key)) effects.now 0 (length effects.now) }
    ensures tallied { Tallied K.SortKey.rank effects.now nets.new.items }
    ensures small { AllByRecursion Small nets.new.items }
{
    for e in effects {
        add(nets, *e);
    }
}

// Memory to add up in, for as many entries as are gathered at most.
#[derive(Drop)]
pub struct Ledger<K> {
    effects: Memory<Effect<K>>,
    nets: Memory<Net<K>>,
}

impl<K: SortKey + Default> Ledger<K> {
    // A ledger in which nothing stands.
    pub fn new() -> Self
        ensures { (result.effects.items ≡ []) × (result.nets.items ≡ []) }
    {
        Ledger::filled(K::default())
    }
}

impl<K: SortKey> Ledger<K> {
    // The same for keys that have no default: any key does, since nothing stands under it.
    pub fn filled(key: K) -> Self
        ensures { (result.effects.items ≡ []) × (result.nets.items ≡ []) }
    {
        Ledger {
            effects: Memory::filled(Effect::comes(key, 0)),
            nets: Memory::filled(Net {
                key,
                plus: 0,
                minus: 0,
            }),
        }
    }

    // The sums of what the entries give under each key, by rising keys, whatever stood in the ledger before.
    // Of more than MAX_ITEMS entries it refuses with fault 6.
    pub fn sums<X: Copy, G: Gather<X, K>>(&mut self, from: &G, xs: &[X]) -> Result<&[Net<K>], Fault>
        ensures { MatchResult result (λ ns. (length xs.now ≤ 1024) × Tallied K.SortKey.rank (flat_map (G.Gather.gives from.now) xs.now) ns.now × AllByRecursion Small ns.now × (length ns.now ≤ 2048)) (λ f. (1024 < length xs.now) × (f ≡ fault_of TooManyTransactions)) }
    {
        if xs.len() > MAX_ITEMS {
            return Err(Cause::TooManyTransactions.into());
        }
        self.effects.clear();
        self.nets.clear();
        collect(from, xs, &mut self.effects);
        self.effects.sort_unstable();
        merge(self.effects.as_slice(), &mut self.nets);
        Ok(self.nets.as_slice())
    }
}

// The net under a key, or an empty one, where the keys rise.
#[tactic(auto, using(ordered::proofs::Rising::under_gap))]
pub fn look_up<K: SortKey>(nets: &[Net<K>], key: K) -> Net<K>
    ensures plus { Rising (λ n. K.SortKey.rank n.key) nets.now → result.plus ≡ under (λ n. K.SortKey.rank n.key) (λ n. n.plus) nets.now (K.SortKey.rank key) }
    ensures minus { Rising (λ n. K.SortKey.rank n.key) nets.now → result.minus ≡ under (λ n. K.SortKey.rank n.key) (λ n. n.minus) nets.now (K.SortKey.rank key) }
    ensures small { AllByRecursion Small nets.now → Small result }
{
    match search(nets, key) {
        Ok(i) => nets[i],
        Err(_) => Net {
            key,
            plus: 0,
            minus: 0,
        },
    }
}
