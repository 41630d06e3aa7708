// The prices at which a pair is filled. Assumes nothing.
ghost use Rattle.std.specs.Prelude.{ℕ, ◌^◌, ◌<◌};

// The prices of the sold and the bought asset of a pair. A price has 24 bits and is not 0.
#[derive(Clone, Copy)]
pub(crate) struct Rates {
    pub(crate) sold: u64,
    pub(crate) bought: u64,
    ghost small: { sold < 2 ^ 24 },
    ghost some: { 0 < bought },
    ghost bought_small: { bought < 2 ^ 24 },
}
