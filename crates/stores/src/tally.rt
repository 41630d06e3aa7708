// How many commands were run, and how many of them had answers that differ.
ghost use Rattle.std.specs.Prelude.{◌≡◌, ◌+◌, min, if◌then◌else◌};

use std::fmt;

#[derive(Clone, Copy, Default)]
pub struct Tally {
    pub commands: u64,
    pub differ: u64,
}

impl Tally {
    // One more command, whose answers agree or not.
    pub fn add(&mut self, agree: bool)
        ensures commands { self.new.commands ≡ min (self.old.commands + 1) 18446744073709551615 }
        ensures differ { self.new.differ ≡ (if agree then self.old.differ else min (self.old.differ + 1) 18446744073709551615) }
    {
        self.commands = self.commands.saturating_add(1);
        if !agree {
            self.differ = self.differ.saturating_add(1);
        }
    }
}

impl fmt::Display for Tally {
    fn fmt<W: fmt::Write>(&self, f: &mut fmt::Formatter<W>) -> fmt::Result {
        let Tally { commands, differ } = *self;
        if differ == 0 {
            write!(f, "{commands} commands run, all answers agreed")
        } else {
            write!(
                f,
                "{commands} commands run, {differ} of them with answers that DIFFER"
            )
        }
    }
}
