// The kinds of commands: the letter that each begins with, and its width. Assumes nothing.
ghost use Rattle.std.specs.Prelude.{◌≡◌, MatchResult};
ghost use Rattle.commands.specs.Format.{width};
ghost use Rattle.commands.specs.Kinds.{letter_of};
ghost use Rattle.terms.specs.declared.causes.Cause.TheVariants.{NoCommand};

use terms::Cause;

#[derive(Clone, Copy, PartialEq, Eq, Debug)]
pub(crate) enum Kind {
    Begin,
    Price,
    Volume,
    Create,
    Pay,
    Place,
    Cancel,
    Found,
    End,
}

impl Kind {
    // How many bytes a command has, with its letter.
    pub(crate) fn width(self) -> usize
        ensures { result ≡ width (letter_of self) }
    {
        match self {
            Kind::Begin => 37,
            Kind::Price => 6,
            Kind::Volume => 11,
            Kind::Create => 13,
            Kind::Pay => 38,
            Kind::Place => 23,
            Kind::Cancel => 19,
            Kind::Found => 69,
            Kind::End => 1,
        }
    }
}

// The kind by its letter.
impl TryFrom<u8> for Kind {
    type Error = Cause;

    ghost try_from_gives = { λ letter r. MatchResult r (λ kind. letter_of kind ≡ letter)
        (λ cause. (cause ≡ NoCommand) × (width letter ≡ 0)) };

    fn try_from(letter: u8) -> Result<Self, Cause> {
        match letter {
            b'B' => Ok(Kind::Begin),
            b'P' => Ok(Kind::Price),
            b'V' => Ok(Kind::Volume),
            b'A' => Ok(Kind::Create),
            b'T' => Ok(Kind::Pay),
            b'O' => Ok(Kind::Place),
            b'C' => Ok(Kind::Cancel),
            b'G' => Ok(Kind::Found),
            b'E' => Ok(Kind::End),
            _ => Err(Cause::NoCommand),
        }
    }
}
