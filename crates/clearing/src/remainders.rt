// The remainders of a block: of each asset, what is sold of it and not paid out. Assumes that the volumes are in range.
ghost use Rattle.std.specs.Prelude.{◌≡◌, ℕ, ◌+◌, ◌-◌, ◌<◌, true, length, slice_index};
ghost use Rattle.terms.specs.Ranges.{every, fit_volume};
ghost use Rattle.clearing.specs.Remainders.{sold_of, Renewed};

use terms::Volume;

// Adds what the volumes sell of each asset.
fn add_volumes(remainders: &mut [u64; 8], volumes: &[Volume])
    requires { every fit_volume volumes.now ≡ true }
    ensures eight { length remainders.new ≡ 8 }
    ensures each { (x : ℕ) → x < 8 → slice_index remainders.old x + sold_of volumes.now x < 18446744073709551616
        → slice_index remainders.new x ≡ slice_index remainders.old x + sold_of volumes.now x }
{
    for v in volumes {
        let x = v.sold as usize;
        remainders[x] = remainders[x].saturating_add(v.amount);
    }
}

// Takes off what is paid in each asset.
fn take_off(remainders: &mut [u64; 8], paid: &[u64; 8])
    ensures eight { length remainders.new ≡ 8 }
    ensures each { (x : ℕ) → x < 8 → slice_index remainders.new x ≡ slice_index remainders.old x - slice_index paid.now x }
{
    // by places: over iter_mut and zip the proof does not tie what is left to its place
    for x in 0..8 {
        remainders[x] = remainders[x].saturating_sub(paid[x]);
    }
}

// Adds to each remainder what the block sells of the asset, less what it pays in it.
pub(crate) fn renew(remainders: &mut [u64; 8], volumes: &[Volume], paid: &[u64; 8])
    requires { every fit_volume volumes.now ≡ true }
    ensures { Renewed volumes.now paid.now remainders.old remainders.new }
{
    add_volumes(remainders, volumes);
    take_off(remainders, paid);
}
