// The commands of a founding or a block one after another, as far as they can be read. Assumes nothing of the bytes.
ghost use Rattle.std.specs.Prelude.{◌-◌, length};
ghost use Rattle.std.specs.Iterator.{at_most};

use commands::read;
use wording::Line;

// The commands from a place on, up to the first that cannot be read.
#[derive(Clone, Copy)]
pub struct Walk<'a> {
    bytes: &'a [u8],
    at: usize,
}

impl<'a> Walk<'a> {
    // From the first byte on.
    pub fn over(bytes: &'a [u8]) -> Walk<'a> {
        Walk { bytes, at: 0 }
    }
}

impl<'a> Iterator for Walk<'a> {
    type Item = Line<'a>;

    ghost remaining = { λ s. at_most (length s.bytes.now - s.at) };

    fn next(&mut self) -> Option<Line<'a>> {
        let place = self.at;
        let reading = read(self.bytes, place).ok()?;
        self.at = reading.next;
        Some(Line {
            place,
            command: reading.command,
        })
    }
}
