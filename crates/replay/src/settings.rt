// Which store and which book a replica has, and their sizes.
ghost use Rattle.std.specs.Prelude.{◌≡◌};
ghost use Rattle.replay.specs.declared.settings.StoreMake.TheVariants.{Sorted};
ghost use Rattle.replay.specs.declared.settings.BookMake.TheVariants.{Trie};

use std::str::FromStr;

#[derive(Clone, Copy)]
pub enum StoreMake {
    Sorted,
    Hashed,
}

#[derive(Clone, Copy)]
pub enum BookMake {
    Trie,
    Table,
}

// A word that names no make.
#[derive(Clone, Copy)]
pub struct NoMake;

impl FromStr for StoreMake {
    type Err = NoMake;

    fn from_str(word: &str) -> Result<Self, NoMake> {
        match word {
            "sorted" => Ok(StoreMake::Sorted),
            "hashed" => Ok(StoreMake::Hashed),
            _ => Err(NoMake),
        }
    }
}

impl FromStr for BookMake {
    type Err = NoMake;

    fn from_str(word: &str) -> Result<Self, NoMake> {
        match word {
            "trie" => Ok(BookMake::Trie),
            "table" => Ok(BookMake::Table),
            _ => Err(NoMake),
        }
    }
}

#[derive(Clone, Copy)]
pub struct Settings {
    pub store: StoreMake,
    pub book: BookMake,
    pub accounts: u32,
    pub top: u32,
    pub offers: u32,
}

// What holds where nothing is said.
impl Default for Settings {
    ghost is_default = { λ s. s ≡ record { store = Sorted; book = Trie; accounts = 256; top = 4294967295; offers = 1024 } };

    fn default() -> Self {
        Settings {
            store: StoreMake::Sorted,
            book: BookMake::Trie,
            accounts: 256,
            top: 4_294_967_295,
            offers: 1_024,
        }
    }
}
