// The replica's own numbers: everything that it holds beside its store and its book.

// The height is also how many blocks have been committed, since a founding sets both to 0 and a commit raises both by 1.
// Whether there was a founding is a flag: an Option round the numbers would have the questions ask for it at each number,
// and answer 0 before the founding all the same.
#[derive(Clone, Copy)]
pub struct Numbers {
    pub(crate) founded: bool,
    pub(crate) height: u32,
    pub(crate) digest: [u8; 32],
    pub(crate) remainders: [u64; 8],
    pub(crate) passed: u32,
    pub(crate) lapsed: u32,
    pub(crate) rejected: u32,
}

impl Numbers {
    // Before the founding.
    pub(crate) const ZERO: Numbers = Numbers {
        founded: false,
        height: 0,
        digest: [0; 32],
        remainders: [0; 8],
        passed: 0,
        lapsed: 0,
        rejected: 0,
    };
}
