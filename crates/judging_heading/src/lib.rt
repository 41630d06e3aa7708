// A block follows on the replica's state: its height is the replica's + 1, and its parent is the replica's digest.
// Assumes nothing.
#![tactic(auto)]

ghost use Rattle.std.specs.Prelude.{List, []};
ghost use Rattle.exchange.specs.Faults.Cause.{wrong_height, wrong_parent};
ghost use Rattle.judging_rules.specs.Rows.{Row, scene, no_store, no_book};
ghost use Rattle.judging_heading.specs.Heading.{heading};

use terms::{Cause, Fault};

// The block's height is the replica's own + 1.
pub fn height_follows(own: u32, height: u32) -> Result<(), Fault>
    ensures { Row (scene no_store no_book own []) (heading height []) wrong_height result }
{
    if height as u64 != own as u64 + 1 {
        return Err(Cause::WrongHeight.at(height as u64, own as u64));
    }
    Ok(())
}

// The block's parent is the replica's digest.
pub fn parent_matches(digest: &[u8; 32], parent: &[u8; 32]) -> Result<(), Fault>
    ensures { Row (scene no_store no_book 0 digest.now) (heading 0 parent.now) wrong_parent result }
{
    if *parent == *digest {
        return Ok(());
    }
    Err(Cause::WrongParent.into())
}
