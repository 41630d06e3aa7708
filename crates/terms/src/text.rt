// How records are written: numbers in decimal, in the order of the fields, with one space between. What is written is
// tested, not proved.
use crate::{Fault, Key, Offer};
use std::fmt;

impl fmt::Display for Key {
    fn fmt<W: fmt::Write>(&self, f: &mut fmt::Formatter<W>) -> fmt::Result {
        let Key {
            sold,
            bought,
            limit,
            account,
            sequence,
        } = *self;
        write!(f, "{sold} {bought} {limit} {account} {sequence}")
    }
}

impl fmt::Display for Offer {
    fn fmt<W: fmt::Write>(&self, f: &mut fmt::Formatter<W>) -> fmt::Result {
        let Offer { key, amount } = *self;
        write!(f, "{key} {amount}")
    }
}

impl fmt::Display for Fault {
    fn fmt<W: fmt::Write>(&self, f: &mut fmt::Formatter<W>) -> fmt::Result {
        let Fault {
            number,
            first,
            second,
        } = *self;
        write!(f, "{number} {first} {second}")
    }
}

// Bytes as lower-case hexadecimal digits, two a byte.
#[derive(Clone, Copy)]
pub struct Hex<'a>(pub &'a [u8]);

impl<'a> fmt::Display for Hex<'a> {
    fn fmt<W: fmt::Write>(&self, f: &mut fmt::Formatter<W>) -> fmt::Result {
        for byte in self.0 {
            let b = *byte;
            write!(f, "{b:02x}")?;
        }
        Ok(())
    }
}
