// What programs that read files share: the words after their name, the bytes of a file, and how they end. Assumes nothing
// of the words and the files.
#![tactic(auto)]

ghost use Rattle.std.specs.Prelude.{◌≡◌, ◌⊎◌, IfErr, MatchResult};
ghost use Rattle.std.specs.declared.io.Error.{Error};
ghost use Rattle.std.specs.Process.{exit_status};
ghost use Rattle.programs.specs.declared.Failure.TheVariants.{NoMemory};

use std::alloc::AllocError;
use std::error::Error;
use std::fmt::Display;
use std::process::ExitCode;
use std::rt::{Env, Files};
use std::{env, fmt, fs, io};

// Why a program cannot do its work.
#[derive(Debug, Drop)]
pub enum Failure<'a> {
    NoMemory,
    // the arguments cannot be read
    Arguments(io::Error),
    // the file at a path cannot be read; what to name instead
    File {
        path: &'a str,
        error: io::Error,
        wanted: &'static str,
    },
}

impl<'a> From<AllocError> for Failure<'a> {
    ghost from_gives = { λ _ failure. failure ≡ NoMemory };

    fn from(_: AllocError) -> Self {
        Failure::NoMemory
    }
}

impl<'a> fmt::Display for Failure<'a> {
    fn fmt<W: fmt::Write>(&self, f: &mut fmt::Formatter<W>) -> fmt::Result {
        match self {
            Failure::NoMemory => write!(f, "there is not enough memory"),
            Failure::Arguments(error) => write!(f, "the arguments cannot be read: {error}"),
            Failure::File {
                path,
                error,
                wanted,
            } => write!(f, "{path} cannot be read ({error}): name {wanted}"),
        }
    }
}

impl<'a> Error for Failure<'a> {}

// The words after the program's name.
pub fn words(rt: &(impl Env + AllocGlobal)) -> Result<Vec<String>, Failure<'static>>
    ensures { IfErr result (λ failure. (failure ≡ Failure.NoMemory) ⊎ ((error : Error) × (failure ≡ Failure.Arguments error))) }
{
    match env::args(rt) {
        Ok(words) => Ok(words.skip(1).collect(rt.alloc())?),
        Err(error) => Err(Failure::Arguments(error)),
    }
}

// The bytes of a file; `wanted` says what to name where it cannot be read.
pub fn read_file<'a>(
    rt: &(impl Files + AllocGlobal),
    path: &'a str,
    wanted: &'static str,
) -> Result<Vec<u8>, Failure<'a>>
    ensures { IfErr result (λ failure. (error : Error) × (failure ≡ Failure.File path.entry error wanted.entry)) }
{
    fs::read(rt, path).map_err(|error| Failure::File {
        path,
        error,
        wanted,
    })
}

// Says on standard error why a program failed, if it did, and gives its exit code, which is 1 then.
pub fn end(rt: &impl Eprint, outcome: Result<ExitCode, impl Display + Drop>) -> ExitCode
    ensures { MatchResult outcome (λ code. result ≡ code) (λ _. exit_status result ≡ 1) }
{
    match outcome {
        Ok(code) => code,
        Err(failure) => {
            let _ = rt.eprintln(failure);
            ExitCode::FAILURE
        }
    }
}

#[cfg(test)]
mod tests {
    use super::*;
    use std::test::Fail;

    #[test]
    fn what_is_there_is_read(rt: HostRuntime) -> Result<(), Fail> {
        drop(words(&rt)?);
        let bytes = read_file(&rt, "/dev/null", "a file")?;
        assert_eq!(rt; bytes.len(), 0);
        Ok(())
    }

    #[test]
    fn what_is_not_there_is_named(rt: HostRuntime) -> Result<(), Fail> {
        let Err(failure) = read_file(&rt, "", "a file") else {
            panic!(rt; "an empty path was read");
        };
        let text = failure.to_string(rt.alloc())?;
        assert_eq!(rt;
            text.as_str(),
            " cannot be read (No such file or directory (os error 2)): name a file"
        );
        Ok(())
    }
}
