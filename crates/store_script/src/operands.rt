// The numbers that follow the first word of a line. Assumes nothing.
ghost use Rattle.std.specs.Prelude.{◌≡◌, ◌+◌, min, take, if◌then◌else◌, Some, None, nat_lt, slice_set};

// As many operands as a command may have.
const MOST: usize = 11;

// Of its own, since a command is copied and the kit's ArrayVec is not Copy.
#[derive(Clone, Copy, Default)]
pub struct Operands {
    pub numbers: [u64; MOST],
    pub count: usize,
}

impl Operands {
    // One more; none where there is no room for it.
    pub fn push(&mut self, number: u64) -> Option<()>
        ensures done { result ≡ (if nat_lt self.old.count 11 then Some tt else None) }
        ensures count { self.new.count ≡ (if nat_lt self.old.count 11 then self.old.count + 1 else self.old.count) }
        ensures numbers { self.new.numbers ≡ (if nat_lt self.old.count 11 then slice_set self.old.numbers self.old.count number else self.old.numbers) }
    {
        let n = self.count;
        if n >= MOST {
            return None;
        }
        self.numbers[n] = number;
        self.count = n + 1;
        Some(())
    }

    pub fn as_slice(&self) -> &[u64]
        ensures { result.now ≡ take (min self.now.count 11) self.now.numbers }
    {
        &self.numbers[..self.count.min(MOST)]
    }
}
