// Where the first block or founding of a longer run of bytes ends.
ghost use Rattle.std.specs.Result.{MatchResult};
ghost use Rattle.commands.specs.Extent.{Ends, Endless};

use crate::kind::Kind;
use crate::parser::span;
use terms::Fault;

// How many bytes there are up to and with the first end command; or fault 3, no letter of a command stands at a place;
// 2, the bytes end before an end command. Only letters and widths are looked at.
pub fn length(bytes: &[u8]) -> Result<usize, Fault>
    ensures { MatchResult result (Ends bytes.now) (Endless bytes.now) }
{
    let mut at = 0;
    loop {
        let (kind, next) = span(bytes, at)?;
        if kind == Kind::End {
            return Ok(next);
        }
        at = next;
    }
}
