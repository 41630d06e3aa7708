// The compression function of FIPS 180-4: the functions of 4.1.2, the constants of 4.2.2, and what 6.2.2 makes of a
// hash value and a block of 64 bytes. Assumes nothing beyond each function's `requires`.
ghost use Rattle.std.specs.Prelude.{◌≡◌, ℕ, ◌+◌, ◌<◌, ◌≤◌, List, length, take, slice_index};
ghost use Rattle.sha256.specs.Functions.{ch, maj, big_sigma0, big_sigma1, small_sigma0, small_sigma1, constant_at};
ghost use Rattle.terms.specs.Bytes.{bytes_of};
ghost use Rattle.sha256.specs.Padding.{words_of, initial};
ghost use Rattle.sha256.specs.Compression.{schedule, round_of, rounds_of, sum_of, compress_of};
ghost use Rattle.sha256.specs.Digest.{digest_of};

// Eight words: a hash value, H0 to H7 of the standard, or the working variables, a to h.
#[derive(Clone, Copy)]
pub(crate) struct State {
    a: u32,
    b: u32,
    c: u32,
    d: u32,
    e: u32,
    f: u32,
    g: u32,
    h: u32,
}

// K_t of the standard, one for each round.
const K: [u32; 64] = [
    0x428a2f98, 0x71374491, 0xb5c0fbcf, 0xe9b5dba5, 0x3956c25b, 0x59f111f1, 0x923f82a4, 0xab1c5ed5,
    0xd807aa98, 0x12835b01, 0x243185be, 0x550c7dc3, 0x72be5d74, 0x80deb1fe, 0x9bdc06a7, 0xc19bf174,
    0xe49b69c1, 0xefbe4786, 0x0fc19dc6, 0x240ca1cc, 0x2de92c6f, 0x4a7484aa, 0x5cb0a9dc, 0x76f988da,
    0x983e5152, 0xa831c66d, 0xb00327c8, 0xbf597fc7, 0xc6e00bf3, 0xd5a79147, 0x06ca6351, 0x14292967,
    0x27b70a85, 0x2e1b2138, 0x4d2c6dfc, 0x53380d13, 0x650a7354, 0x766a0abb, 0x81c2c92e, 0x92722c85,
    0xa2bfe8a1, 0xa81a664b, 0xc24b8b70, 0xc76c51a3, 0xd192e819, 0xd6990624, 0xf40e3585, 0x106aa070,
    0x19a4c116, 0x1e376c08, 0x2748774c, 0x34b0bcb5, 0x391c0cb3, 0x4ed8aa4a, 0x5b9cca4f, 0x682e6ff3,
    0x748f82ee, 0x78a5636f, 0x84c87814, 0x8cc70208, 0x90befffa, 0xa4506ceb, 0xbef9a3f7, 0xc67178f2,
];

// Ch: each bit of x chooses between those of y and z. This form takes an operation less than the standard's.
fn choose(x: u32, y: u32, z: u32) -> u32
    ensures { result ≡ ch x y z }
{
    z ^ (x & (y ^ z))
}

// Maj: each bit is what most of the three have.
fn majority(x: u32, y: u32, z: u32) -> u32
    ensures { result ≡ maj x y z }
{
    (x & y) ^ (x & z) ^ (y & z)
}

// Σ0
fn big_sigma0(x: u32) -> u32
    ensures { result ≡ big_sigma0 x }
{
    x.rotate_right(2) ^ x.rotate_right(13) ^ x.rotate_right(22)
}

// Σ1
fn big_sigma1(x: u32) -> u32
    ensures { result ≡ big_sigma1 x }
{
    x.rotate_right(6) ^ x.rotate_right(11) ^ x.rotate_right(25)
}

// σ0
fn small_sigma0(x: u32) -> u32
    ensures { result ≡ small_sigma0 x }
{
    x.rotate_right(7) ^ x.rotate_right(18) ^ (x >> 3)
}

// σ1
fn small_sigma1(x: u32) -> u32
    ensures { result ≡ small_sigma1 x }
{
    x.rotate_right(17) ^ x.rotate_right(19) ^ (x >> 10)
}

// One round, with its constant and its word of the schedule.
fn round(s: State, k: u32, w: u32) -> State
    ensures { result ≡ round_of s k w }
{
    let t1 = s
        .h
        .wrapping_add(big_sigma1(s.e))
        .wrapping_add(choose(s.e, s.f, s.g))
        .wrapping_add(k)
        .wrapping_add(w);
    let t2 = big_sigma0(s.a).wrapping_add(majority(s.a, s.b, s.c));
    State {
        a: t1.wrapping_add(t2),
        b: s.a,
        c: s.b,
        d: s.c,
        e: s.d.wrapping_add(t1),
        f: s.e,
        g: s.f,
        h: s.g,
    }
}

// Round t over a message schedule.
fn step(s: State, w: &[u32; 64], t: usize) -> State
    requires { t < 64 }
    ensures { result ≡ round_of s (constant_at t) (slice_index w.now t) }
{
    round(s, K[t], w[t])
}

// Eight rounds from round t on, after which each working variable has its first place again. Only the words up to t + 7
// of the schedule need be there.
fn eight(s: State, w: &[u32; 64], t: usize) -> State
    requires { t + 8 ≤ 64 }
    ensures { (start : State) (all : List ℕ) → take (t + 8) w.now ≡ take (t + 8) all
        → s ≡ rounds_of t all start → result ≡ rounds_of (t + 8) all start }
{
    let mut s = s;
    for i in 0..8 {
        s = step(s, w, t + i);
    }
    s
}

// Eight words more of a message schedule of n + 16 words. It goes by places, since each word is made of those 2, 7, 15 and
// 16 places before it.
fn extend(w: &mut [u32; 64], n: usize)
    requires { n + 24 ≤ 64 }
    ensures { (first : List ℕ) → take (n + 16) w.old ≡ schedule n first
        → take (n + 24) w.new ≡ schedule (n + 8) first }
{
    for t in n + 16..n + 24 {
        let x = small_sigma1(w[t - 2])
            .wrapping_add(w[t - 7])
            .wrapping_add(small_sigma0(w[t - 15]))
            .wrapping_add(w[t - 16]);
        w[t] = x;
    }
}

// The words of a block, with room for the rest of the message schedule.
fn load(block: &[u8; 64]) -> [u32; 64]
    ensures { take 16 result ≡ words_of 16 block.now }
{
    let (quads, _) = block.as_chunks::<4>();
    let mut w = [0; 64];
    for (t, quad) in quads.iter().enumerate() {
        w[t] = u32::from_be_bytes(*quad);
    }
    w
}

// The 64 rounds over a block. The message schedule is written as they go, eight words at a time: so the processor can work
// at both at once. Each turn is a step of eight places in both.
fn rounds(start: State, block: &[u8; 64]) -> State
    ensures { result ≡ rounds_of 64 (schedule 48 (words_of 16 block.now)) start }
{
    let mut w = load(block);
    let mut s = start;
    for i in 0..6 {
        extend(&mut w, 8 * i);
        s = eight(s, &w, 8 * i);
    }
    let last = eight(s, &w, 48);
    eight(last, &w, 56)
}

// The sums of two states, word by word, by the standard's names.
fn add(s: State, t: State) -> State
    ensures { result ≡ sum_of s t }
{
    State {
        a: s.a.wrapping_add(t.a),
        b: s.b.wrapping_add(t.b),
        c: s.c.wrapping_add(t.c),
        d: s.d.wrapping_add(t.d),
        e: s.e.wrapping_add(t.e),
        f: s.f.wrapping_add(t.f),
        g: s.g.wrapping_add(t.g),
        h: s.h.wrapping_add(t.h),
    }
}

impl State {
    // The hash value that every message starts from.
    pub(crate) fn initial() -> State
        ensures { result ≡ initial }
    {
        State {
            a: 0x6a09e667,
            b: 0xbb67ae85,
            c: 0x3c6ef372,
            d: 0xa54ff53a,
            e: 0x510e527f,
            f: 0x9b05688c,
            g: 0x1f83d9ab,
            h: 0x5be0cd19,
        }
    }

    // The hash value after one block more.
    pub(crate) fn compress(self, block: &[u8; 64]) -> State
        ensures { result ≡ compress_of self block.now }
    {
        add(self, rounds(self, block))
    }

    // The bytes of the eight words, in turn.
    pub(crate) fn bytes(self) -> [u8; 32]
        ensures { result ≡ digest_of self }
    {
        let words = [
            self.a, self.b, self.c, self.d, self.e, self.f, self.g, self.h,
        ];
        let quads = words.map(
            |word: u32| -> [u8; 4]
                ensures { result ≡ bytes_of 4 word }
            { word.to_be_bytes() },
        );
        *quads.as_flattened().first_chunk().unwrap()
    }
}
