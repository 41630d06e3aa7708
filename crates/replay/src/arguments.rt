// The arguments: a file, and in any order options with their values. Assumes nothing of the words.
ghost use Rattle.std.specs.Prelude.{◌≤◌, IfSome};

use crate::settings::Settings;
use std::fmt;
use std::str::FromStr;

// As many accounts as may be asked for, and as many offers.
const MOST: u32 = 65_536;

pub const USAGE: &str =
    "usage: replay FILE [--store sorted|hashed] [--book trie|table] [--accounts N] [--top N] [--offers N]";

// What each option does.
pub const HELP: &str =
    "prints the listing of the founding and the blocks in FILE, and then how many checks passed and how many blocks
were committed, lapsed and rejected
  --store sorted|hashed  how accounts are kept; sorted unless given
  --book trie|table      how offers are kept; trie unless given
  --accounts N           how many accounts may stand, at most 65536; 256 unless given
  --top N                the highest number that an account may have, at most 4294967295, which it is unless given
  --offers N             how many offers may stand, at most 65536; 1024 unless given";

// An option that takes a value.
#[derive(Clone, Copy)]
pub enum Choice {
    Store,
    Book,
    Accounts,
    Top,
    Offers,
}

// What the arguments ask for.
#[derive(Clone, Copy)]
pub struct Arguments<'a> {
    pub file: &'a str,
    pub settings: Settings,
}

// What is wrong with the arguments.
#[derive(Clone, Copy)]
pub enum Slip<'a> {
    NoFile,
    SecondFile(&'a str),
    Unknown(&'a str),
    NoValue(Choice),
    WrongValue(Choice, &'a str),
}

pub fn asks_help(words: &[String]) -> bool {
    words.iter().any(|word| word.as_str() == "--help")
}

// A word that names no option.
#[derive(Clone, Copy)]
pub struct NoChoice;

impl FromStr for Choice {
    type Err = NoChoice;

    fn from_str(word: &str) -> Result<Self, NoChoice> {
        match word {
            "--store" => Ok(Choice::Store),
            "--book" => Ok(Choice::Book),
            "--accounts" => Ok(Choice::Accounts),
            "--top" => Ok(Choice::Top),
            "--offers" => Ok(Choice::Offers),
            _ => Err(NoChoice),
        }
    }
}

// A whole number up to the most that there may be.
fn count(word: &str) -> Option<u32>
    ensures { IfSome result (λ n. n ≤ 65536) }
{
    word.parse::<u32>().ok().filter(|n| *n <= MOST)
}

impl Settings {
    // Chooses one of them; nothing where the value is wrong.
    fn choose(&mut self, choice: Choice, value: &str) -> Option<()> {
        match choice {
            Choice::Store => self.store = value.parse().ok()?,
            Choice::Book => self.book = value.parse().ok()?,
            Choice::Accounts => self.accounts = count(value)?,
            Choice::Top => self.top = value.parse().ok()?,
            Choice::Offers => self.offers = count(value)?,
        }
        Some(())
    }
}

pub fn parse<'a>(words: &'a [String]) -> Result<Arguments<'a>, Slip<'a>> {
    let mut settings = Settings::default();
    let mut file = None;
    let mut words = words.iter().map(|word| word.as_str());
    while let Some(word) = words.next() {
        if word.starts_with("--") {
            let choice = word.parse().map_err(|_| Slip::Unknown(word))?;
            let value = words.next().ok_or(Slip::NoValue(choice))?;
            settings
                .choose(choice, value)
                .ok_or(Slip::WrongValue(choice, value))?;
        } else if file.is_some() {
            return Err(Slip::SecondFile(word));
        } else {
            file = Some(word);
        }
    }
    let file = file.ok_or(Slip::NoFile)?;
    Ok(Arguments { file, settings })
}

impl fmt::Display for Choice {
    fn fmt<W: fmt::Write>(&self, f: &mut fmt::Formatter<W>) -> fmt::Result {
        match *self {
            Choice::Store => write!(f, "--store takes sorted or hashed"),
            Choice::Book => write!(f, "--book takes trie or table"),
            Choice::Accounts => write!(f, "--accounts takes a whole number from 0 to 65536"),
            Choice::Top => write!(f, "--top takes a whole number from 0 to 4294967295"),
            Choice::Offers => write!(f, "--offers takes a whole number from 0 to 65536"),
        }
    }
}

impl<'a> fmt::Display for Slip<'a> {
    fn fmt<W: fmt::Write>(&self, f: &mut fmt::Formatter<W>) -> fmt::Result {
        match *self {
            Slip::NoFile => write!(f, "no FILE is named"),
            Slip::SecondFile(word) => write!(
                f,
                "one FILE is replayed, and {word} would be a second"
            ),
            Slip::Unknown(word) => write!(f, "there is no option {word}"),
            Slip::NoValue(choice) => write!(f, "{choice}, and no value comes after it"),
            Slip::WrongValue(choice, word) => write!(f, "{choice}, not {word}"),
        }
    }
}
